//! The texts of values.
ghost use Rattle.std.specs.Prelude.{◌≡◌, ◌<◌, ◌==◌, IfOk, string_bytes, option_copied};
ghost use Rattle.std.specs.Int.{bit_at};
ghost use Rattle.prop_sets.specs.Names.{texts_of};
ghost use Rattle.prop_vocabulary.specs.Texts.{in_braces, names_in};
ghost use Rattle.prop_vocabulary.specs.inner.TextParts.{span_text, domain_of};
ghost use Rattle.prop_vocabulary.specs.Texts.{elements_of_kind, value_text};
ghost use Rattle.prop_vocabulary.specs.inner.Named.{symbol_text};

use crate::vocabulary::Vocabulary;
use prop_lattice::{Elements, Info, Kind, Span};
use prop_sets::Domain;
use std::alloc::{AllocError, Global};

/// `a..b`, or `a` where both ends are equal.
fn span_text(alloc: Global, span: Span) -> Result<String, AllocError>
    ensures { IfOk result (λ text. string_bytes text ≡ span_text span.lo span.hi) }
{
    let low = span.lo();
    let high = span.hi();
    if low == high {
        format!(in alloc; "{low}")
    } else {
        format!(in alloc; "{low}..{high}")
    }
}

/// Whether the bit is set.
fn is_set(bits: u64, i: u8) -> bool
    requires { i < 64 }
    ensures { result ≡ (bit_at bits i == 1) }
{
    bits >> i & 1 == 1
}

/// The names of the elements, in the order of their domain.
fn names_in<'a>(
    alloc: Global,
    domain: &'a Domain,
    elements: Elements,
) -> Result<Vec<&'a str>, AllocError>
    ensures { IfOk result (λ v. texts_of v.items ≡ names_in domain.now elements.bits) }
{
    let bits = elements.bits();
    let mut names = Vec::new(alloc);
    for i in 0..domain.size() {
        if is_set(bits, i) {
            names.push(domain.element(i))?;
        }
    }
    Ok(names)
}

/// The names in braces with one space between, or the bare name where there is just one.
fn in_braces(alloc: Global, names: &[&str]) -> Result<String, AllocError>
    ensures { IfOk result (λ text. string_bytes text ≡ in_braces (texts_of names.now)) }
{
    if names.len() == 1 {
        return String::from_str(alloc, names[0]);
    }
    let names = names.join(alloc, " ")?;
    format!(in alloc; "{{{names}}}")
}

impl Vocabulary {
    /// The domain of a kind of sets.
    fn domain_of(&self, kind: Kind) -> Option<&Domain>
        ensures { option_copied result ≡ domain_of self.now kind }
    {
        match kind {
            Kind::Set(number) => self.domains.get(usize::from(number)),
            Kind::Span | Kind::Symbol => None,
        }
    }

    /// The text of elements of the kind's domain.
    fn elements_text(
        &self,
        alloc: Global,
        kind: Kind,
        elements: Elements,
    ) -> Result<String, AllocError>
        ensures { IfOk result (λ text.
            string_bytes text ≡ in_braces
            (names_in (elements_of_kind self.now kind) elements.bits)) }
    {
        match self.domain_of(kind) {
            Some(domain) => {
                let names = names_in(alloc, domain, elements)?;
                in_braces(alloc, &names)
            }
            None => String::from_str(alloc, "{}"),
        }
    }

    /// The name of a symbol; nothing where there is none with this number.
    fn symbol_text(&self, number: u32) -> &str
        ensures { result.now ≡ symbol_text self.now number }
    {
        if (number as usize) < self.symbols.len() {
            self.symbols.name(number as usize)
        } else {
            ""
        }
    }

    /// The text of an information of a cell of the kind: a span by its ends, elements and symbols
    /// by their names.
    pub fn print_value(&self, alloc: Global, kind: Kind, info: Info) -> Result<String, AllocError>
        ensures { IfOk result (λ text. string_bytes text ≡ value_text self.now kind info) }
    {
        match info {
            Info::Nothing => String::from_str(alloc, "nothing"),
            Info::Span(span) => span_text(alloc, span),
            Info::Set(elements) => self.elements_text(alloc, kind, elements),
            Info::Sym(number) => String::from_str(alloc, self.symbol_text(number)),
            Info::Contradiction => String::from_str(alloc, "contradiction"),
        }
    }
}
