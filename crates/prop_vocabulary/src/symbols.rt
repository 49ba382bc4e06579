//! The symbols of a vocabulary.
ghost use Rattle.std.specs.Prelude.{◌≡◌, ◌<◌, ◌⊎◌, length, take, None, Some, Ok, Err, IfSome, IfOk};
ghost use Rattle.std.specs.Prelude.{IfErr, OnOk, OnErr};
ghost use Rattle.prop_vocabulary.specs.Names.{number_in};
ghost use Rattle.prop_vocabulary.specs.Vocabulary.{symbol_number, with_symbol, with_first_symbols};
ghost use Rattle.prop_vocabulary.specs.Vocabulary.{IsWhole};
ghost use Rattle.prop_vocabulary.specs.Refusing.{symbol_refusal};

use crate::vocabulary::Vocabulary;
use prop_lattice::{Limit, Refusal};

impl Vocabulary {
    /// How many symbols there are.
    pub fn symbol_count(&self) -> usize
        ensures count { result ≡ length self.now.symbols }
        ensures whole { IsWhole self.now }
    {
        self.symbols.len()
    }

    /// The number of the symbol with this name.
    pub fn symbol(&self, name: &str) -> Option<u32>
        ensures number { result ≡ number_in self.now.symbols name.now }
        ensures there { IfSome result (λ n. n < length self.now.symbols) }
    {
        let number = self.symbols.find(name)?;
        Some(number as u32)
    }

    /// The number of the symbol with this name; a new one gets the next number.
    ///
    /// There can be 100,000 symbols: one more is `LimitReached`. Want of memory is `Memory`, and
    /// only where the symbol is new and there is one more to be had. After an error nothing has
    /// changed.
    pub fn add_symbol(&mut self, name: &str) -> Result<u32, Refusal>
        ensures known { IfSome (number_in self.old.symbols name.now) (λ n. result ≡ Ok n) }
        ensures number { IfOk result (λ n. n ≡ symbol_number self.old name.now) }
        ensures ok { OnOk result (self.new ≡ with_symbol self.old name.now) }
        ensures allowed { OnOk result (symbol_refusal self.old name.now ≡ None) }
        ensures err { OnErr result (self.new ≡ self.old) }
        ensures refused { IfSome (symbol_refusal self.old name.now) (λ e. result ≡ Err e) }
        ensures why { IfErr result (λ e. (symbol_refusal self.old name.now ≡ Some e)
            ⊎ (e ≡ Refusal.Memory)) }
    {
        match self.symbol(name) {
            Some(number) => Ok(number),
            None => self.new_symbol(name),
        }
    }

    /// A symbol that is not there yet.
    fn new_symbol(&mut self, name: &str) -> Result<u32, Refusal>
        requires { number_in self.old.symbols name.now ≡ None }
        ensures number { IfOk result (λ n. n ≡ symbol_number self.old name.now) }
        ensures ok { OnOk result (self.new ≡ with_symbol self.old name.now) }
        ensures allowed { OnOk result (symbol_refusal self.old name.now ≡ None) }
        ensures err { OnErr result (self.new ≡ self.old) }
        ensures refused { IfSome (symbol_refusal self.old name.now) (λ e. result ≡ Err e) }
        ensures why { IfErr result (λ e. (symbol_refusal self.old name.now ≡ Some e)
            ⊎ (e ≡ Refusal.Memory)) }
    {
        let number = self.symbols.len();
        if number >= Limit::Symbols.most() {
            return Err(Refusal::LimitReached(Limit::Symbols));
        }
        self.symbols.push(self.alloc, name)?;
        Ok(number as u32)
    }

    /// Takes all symbols back but the first `count`: those that a command made which is then
    /// refused. Takes no memory.
    pub fn keep_symbols(&mut self, count: usize)
        ensures { self.new ≡ with_first_symbols self.old count }
    {
        self.symbols.truncate(count);
    }
}
