//! The vocabulary of a session: what its lines can name beside cells, procedures and premises.
ghost use Rattle.std.specs.Prelude.{◌≡◌, IfOk};
ghost use Rattle.prop_vocabulary.specs.Vocabulary.{start_vocabulary};
ghost use Rattle.prop_vocabulary.specs.inner.Truth.{truth_elements};

use crate::names::Names;
use prop_sets::{Domain, Relation};
use std::alloc::{AllocError, Global};
use std::marker::Model;

/// Domains, relations and symbols, each numbered in the order in which it was declared. Domain 0 is
/// truth; the first declared one has the number 1.
#[derive(Drop)]
pub struct Vocabulary {
    pub(crate) alloc: Global,
    pub(crate) domain_names: Names,
    pub(crate) domains: Vec<Domain>,
    pub(crate) relation_names: Names,
    pub(crate) relations: Vec<Relation>,
    pub(crate) symbols: Names,
}

impl Model for Vocabulary {
    ghost use Rattle.prop_vocabulary.specs.Vocabulary as words;
    ghost use Rattle.prop_vocabulary.specs.Vocabulary.{IsWhole};

    ghost Value = { words.Vocabulary };

    ghost view = { λ v. record {
      domain_names = v.domain_names;
      domains = v.domains.items;
      relation_names = v.relation_names;
      relations = v.relations.items;
      symbols = v.symbols;
    } };

    ghost invariant = { λ v. IsWhole
        (record {
          domain_names = v.domain_names;
          domains = v.domains.items;
          relation_names = v.relation_names;
          relations = v.relations.items;
          symbols = v.symbols;
        }) };
}

/// The domain of truth: `yes` and `no`.
fn truth(alloc: Global) -> Result<Domain, AllocError>
    ensures { IfOk result (λ d. d ≡ truth_elements) }
{
    match Domain::new(alloc, &["yes", "no"]) {
        Ok(domain) => Ok(domain),
        Err(_) => Err(AllocError),
    }
}

impl Vocabulary {
    /// A vocabulary in which nothing is declared: it has the domain of truth alone.
    pub fn new(alloc: Global) -> Result<Vocabulary, AllocError>
        ensures { IfOk result (λ v. v ≡ start_vocabulary) }
    {
        let mut domains = Vec::new(alloc);
        domains.push(truth(alloc)?)?;
        Ok(Vocabulary {
            alloc,
            domain_names: Names::new(alloc),
            domains,
            relation_names: Names::new(alloc),
            relations: Vec::new(alloc),
            symbols: Names::new(alloc),
        })
    }
}
