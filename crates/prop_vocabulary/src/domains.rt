//! The domains of a vocabulary.
ghost use Rattle.std.specs.Prelude.{◌≡◌, ◌<◌, ◌⊎◌, length, None, Some, Err, IfSome, IfErr, OnOk};
ghost use Rattle.std.specs.Prelude.{OnErr, MatchResult};
ghost use Rattle.prop_sets.specs.Names.{texts_of, AreElements};
ghost use Rattle.prop_vocabulary.specs.Vocabulary.{domain_number, elements_of, with_domain};
ghost use Rattle.prop_vocabulary.specs.Refusing.{domain_refusal};

use crate::growth::push_named;
use crate::vocabulary::Vocabulary;
use prop_lattice::{Limit, Refusal};
use prop_sets::Domain;
use prop_sets::domain::has_repeat;

impl Vocabulary {
    /// The number of the declared domain with this name.
    pub fn domain_number(&self, name: &str) -> Option<u16>
        ensures number { result ≡ domain_number self.now name.now }
        ensures there { IfSome result (λ d. d < length self.now.domains) }
    {
        let number = self.domain_names.find(name)?;
        Some(number as u16 + 1)
    }

    /// The domain with this number.
    pub fn domain(&self, number: u16) -> &Domain
        requires { number < length self.now.domains }
        ensures elements { result.now ≡ elements_of self.now number }
        ensures apart { AreElements result.now }
    {
        &self.domains[usize::from(number)]
    }

    /// The domain of truth, which has the number 0.
    pub fn truth(&self) -> &Domain
        ensures there { 0 < length self.now.domains }
        ensures elements { result.now ≡ elements_of self.now 0 }
        ensures apart { AreElements result.now }
    {
        &self.domains[0]
    }

    /// Declares a domain with these elements, in order; it has the next number.
    ///
    /// `NameTaken` where a declared domain has the name or an element stands twice; then
    /// `LimitReached` where there are 1,024 declared domains or more than 64 elements. Want of
    /// memory is `Memory`, and only where none of these holds. After an error nothing has changed.
    pub fn declare_domain(&mut self, name: &str, elements: &[&str]) -> Result<(), Refusal>
        requires { 0 < length elements.now }
        ensures ok { OnOk result (self.new ≡ with_domain self.old name.now
            (texts_of elements.now)) }
        ensures allowed { OnOk result
            (domain_refusal self.old name.now (texts_of elements.now) ≡ None) }
        ensures err { OnErr result (self.new ≡ self.old) }
        ensures refused { IfSome (domain_refusal self.old name.now (texts_of elements.now))
            (λ e. result ≡ Err e) }
        ensures why { IfErr result (λ e.
            (domain_refusal self.old name.now (texts_of elements.now) ≡ Some e)
            ⊎ (e ≡ Refusal.Memory)) }
    {
        let domain = self.domain_to_declare(name, elements)?;
        push_named(
            self.alloc,
            &mut self.domain_names,
            &mut self.domains,
            name,
            domain,
        )?;
        Ok(())
    }

    /// The domain with these elements, where it may be declared with this name.
    fn domain_to_declare(&self, name: &str, elements: &[&str]) -> Result<Domain, Refusal>
        requires { 0 < length elements.now }
        ensures ok { MatchResult result
            (λ d. (d ≡ texts_of elements.now) × AreElements (texts_of elements.now))
            (λ e. (domain_refusal self.now name.now (texts_of elements.now) ≡ Some e)
            ⊎ (e ≡ Refusal.Memory)) }
        ensures refused { IfSome (domain_refusal self.now name.now (texts_of elements.now))
            (λ e. result ≡ Err e) }
        ensures allowed { OnOk result
            (domain_refusal self.now name.now (texts_of elements.now) ≡ None) }
    {
        if self.domain_names.find(name).is_some() || has_repeat(self.alloc, elements) {
            return Err(Refusal::NameTaken);
        }
        if self.domain_names.len() >= Limit::Domains.most() {
            return Err(Refusal::LimitReached(Limit::Domains));
        }
        Domain::new(self.alloc, elements)
    }
}
