//! Relations by their numbers.
ghost use Rattle.std.specs.Prelude.{◌≡◌, slice_get, option_copied};
ghost use Rattle.prop_vocabulary.specs.Names.{number_in};

use crate::vocabulary::Vocabulary;
use prop_sets::Relation;

impl Vocabulary {
    /// The number of the relation with this name: how many were declared before it.
    pub fn relation_number(&self, name: &str) -> Option<usize>
        ensures { result ≡ number_in self.now.relation_names name.now }
    {
        self.relation_names.find(name)
    }

    /// The relation with this number, `None` where there is none.
    pub fn relation_at(&self, number: usize) -> Option<&Relation>
        ensures { option_copied result ≡ slice_get self.now.relations number }
    {
        self.relations.get(number)
    }
}
