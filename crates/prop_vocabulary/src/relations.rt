//! The relations of a vocabulary.
ghost use Rattle.std.specs.Prelude.{◌≡◌, ◌<◌, ◌⊎◌, length, None, Some, Err, IfSome, IfErr, IfOk};
ghost use Rattle.std.specs.Prelude.{OnOk, OnErr, MatchResult, option_copied};
ghost use Rattle.prop_sets.specs.Relation.{no_pairs};
ghost use Rattle.prop_vocabulary.specs.Promises.{HaveJustTheirPairs};
ghost use Rattle.prop_vocabulary.specs.Pairs.{texts_of_pairs};
ghost use Rattle.prop_vocabulary.specs.Vocabulary.{elements_of, side_at, domain_number};
ghost use Rattle.prop_vocabulary.specs.Vocabulary.{relation_named, relation_of};
ghost use Rattle.prop_vocabulary.specs.inner.Between.{relation_between};
ghost use Rattle.prop_vocabulary.specs.Vocabulary.{with_relation, IsSideOf, HasSides};
ghost use Rattle.prop_vocabulary.specs.Refusing.{pairs_refusal, relation_refusal};

use crate::growth::push_named;
use crate::pairs::{add_pairs, is_outside};
use crate::vocabulary::Vocabulary;
use prop_lattice::{Limit, Refusal};
use prop_sets::{Relation, Rows, Side};
use std::alloc::AllocError;

impl Vocabulary {
    /// The relation with this name.
    pub fn relation(&self, name: &str) -> Option<&Relation>
        ensures value { option_copied result ≡ relation_named self.now name.now }
        ensures sides { IfSome result (λ m. HasSides self.now.domains m.now) }
    {
        let number = self.relation_names.find(name)?;
        self.relations.get(number)
    }

    /// Declares the relation between two declared domains that has these pairs of their elements,
    /// and no others.
    ///
    /// `NameTaken` where a relation has the name, then `NoSuchDomain` where one of the domains is
    /// not declared, then `NotInTheDomain` where the first word of a pair is no element of the
    /// first domain or the second none of the second, then `LimitReached` where there are 1,024
    /// relations. Want of memory is `Memory`, and only where none of these holds. After an error
    /// nothing has changed.
    pub fn declare_relation(
        &mut self,
        name: &str,
        from: &str,
        to: &str,
        pairs: &[(&[u8], &[u8])],
    ) -> Result<(), Refusal>
        ensures ok { OnOk result (self.new ≡ with_relation self.old name.now from.now to.now
            (texts_of_pairs pairs.now)) }
        ensures allowed { OnOk result
            (relation_refusal self.old name.now from.now to.now (texts_of_pairs pairs.now) ≡ None) }
        ensures err { OnErr result (self.new ≡ self.old) }
        ensures refused { IfSome (relation_refusal self.old name.now from.now to.now
            (texts_of_pairs pairs.now)) (λ e. result ≡ Err e) }
        ensures why { IfErr result (λ e.
            (relation_refusal self.old name.now from.now to.now (texts_of_pairs pairs.now) ≡ Some e)
            ⊎ (e ≡ Refusal.Memory)) }
    {
        let relation = self.relation_to_declare(name, from, to, pairs)?;
        push_named(
            self.alloc,
            &mut self.relation_names,
            &mut self.relations,
            name,
            relation,
        )?;
        Ok(())
    }

    /// The relation with these pairs, where it may be declared with this name.
    fn relation_to_declare(
        &self,
        name: &str,
        from: &str,
        to: &str,
        pairs: &[(&[u8], &[u8])],
    ) -> Result<Relation, Refusal>
        ensures ok { MatchResult result
            (λ m. (m ≡ relation_of self.now from.now to.now (texts_of_pairs pairs.now))
            × HasSides self.now.domains m)
            (λ e. (relation_refusal self.now name.now from.now to.now
            (texts_of_pairs pairs.now) ≡ Some e) ⊎ (e ≡ Refusal.Memory)) }
        ensures refused { IfSome (relation_refusal self.now name.now from.now to.now
            (texts_of_pairs pairs.now)) (λ e. result ≡ Err e) }
        ensures allowed { OnOk result
            (relation_refusal self.now name.now from.now to.now (texts_of_pairs pairs.now) ≡ None) }
    {
        if self.relation_names.find(name).is_some() {
            return Err(Refusal::NameTaken);
        }
        let (first, second) = self.domains_of(from, to, pairs)?;
        if self.relation_names.len() >= Limit::Relations.most() {
            return Err(Refusal::LimitReached(Limit::Relations));
        }
        Ok(self.relation_with(first, second, pairs)?)
    }

    /// The numbers of two declared domains, where each word of the pairs is an element of its
    /// domain. It takes no memory.
    #[tactic(auto, using(crate::proofs::PairLemmas::words_inside, crate::proofs::PairLemmas::words_outside, crate::proofs::RefusalLemmas::no_from, crate::proofs::RefusalLemmas::no_to))]
    fn domains_of(
        &self,
        from: &str,
        to: &str,
        pairs: &[(&[u8], &[u8])],
    ) -> Result<(u16, u16), Refusal>
        ensures ok { MatchResult result
            (λ n. pairs_refusal self.now from.now to.now (texts_of_pairs pairs.now) ≡ None)
            (λ e. pairs_refusal self.now from.now to.now (texts_of_pairs pairs.now) ≡ Some e) }
        ensures from { IfOk result (λ n. domain_number self.now from.now ≡ Some n.0) }
        ensures to { IfOk result (λ n. domain_number self.now to.now ≡ Some n.1) }
        ensures first { IfOk result (λ n. n.0 < length self.now.domains) }
        ensures second { IfOk result (λ n. n.1 < length self.now.domains) }
    {
        let Some(first) = self.domain_number(from) else {
            return Err(Refusal::NoSuchDomain);
        };
        let Some(second) = self.domain_number(to) else {
            return Err(Refusal::NoSuchDomain);
        };
        if is_outside(self.domain(first), self.domain(second), pairs) {
            return Err(Refusal::NotInTheDomain);
        }
        Ok((first, second))
    }

    /// The relation with these pairs between the domains with these numbers.
    #[tactic(auto, using(crate::proofs::PairLemmas::made_between, crate::proofs::PairLemmas::same_sides))]
    fn relation_with(
        &self,
        first: u16,
        second: u16,
        pairs: &[(&[u8], &[u8])],
    ) -> Result<Relation, AllocError>
        requires first { first < length self.now.domains }
        requires second { second < length self.now.domains }
        ensures rows { IfOk result (λ m.
            m ≡ relation_between self.now first second (texts_of_pairs pairs.now)) }
        ensures sides { IfOk result (λ m. HasSides self.now.domains m) }
    {
        let mut rows = self.rows_between(first, second)?;
        add_pairs(&mut rows, self.domain(first), self.domain(second), pairs);
        Relation::new(self.alloc, rows)
    }

    /// A relation without pairs between the domains with these numbers.
    fn rows_between(&self, first: u16, second: u16) -> Result<Rows, AllocError>
        requires first { first < length self.now.domains }
        requires second { second < length self.now.domains }
        ensures rows { IfOk result (λ m.
            m ≡ no_pairs (side_at self.now first) (side_at self.now second)) }
        ensures first_size { IfOk result (λ m. m.from.size ≡ length (elements_of self.now first)) }
        ensures second_size { IfOk result (λ m. m.to.size ≡ length (elements_of self.now second)) }
        ensures sides { IfOk result (λ m. HasSides self.now.domains m) }
    {
        let (from, to) = (self.side(first), self.side(second));
        Rows::new(self.alloc, from, to)
    }

    /// The domain with this number as a side of a relation.
    fn side(&self, number: u16) -> Side
        requires { number < length self.now.domains }
        ensures side { result ≡ side_at self.now number }
        ensures size { result.size ≡ length (elements_of self.now number) }
        ensures is_of { IsSideOf self.now.domains result }
    {
        let size = self.domain(number).size();
        Side {
            domain: number,
            size,
        }
    }

    /// A law: the pairs of a declared relation are those by whose names it was declared, and no
    /// others.
    pub fn relations_have_just_their_pairs()
        ensures { HaveJustTheirPairs }
    {}
}
