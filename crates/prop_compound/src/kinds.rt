//! The kinds that words say.
ghost use Rattle.std.specs.Prelude.{◌≡◌, length, IfSome};
ghost use Rattle.prop_lattice.specs.declared.info.Kind.TheVariants as kinds;
ghost use Rattle.prop_language.specs.Said.{kind_of};
ghost use Rattle.prop_compound.specs.Kinds.{kind_named, IsSized};

use prop_language::KindWord;
use prop_lattice::Kind;
use prop_procedures::Kinded;
use prop_procedures::fitting::span_kinded;
use prop_sets::Domain;
use prop_vocabulary::Vocabulary;

/// The kind of the sets over the domain with this number.
fn kind_of_sets(number: u16, domain: &Domain) -> Kinded
    ensures { result ≡ record { kind = kinds.Set number; size = length domain.now } }
{
    Kinded {
        kind: Kind::Set(number),
        size: domain.size(),
    }
}

/// The kind that a word says, `None` where it names no domain.
pub fn kind_named(words: &Vocabulary, word: KindWord) -> Option<Kinded>
    ensures kind { result ≡ kind_named words.now (kind_of word.entry) }
    ensures sized { IfSome result (IsSized words.now) }
{
    match word {
        KindWord::Spans => Some(span_kinded()),
        KindWord::Truths => Some(kind_of_sets(0, words.truth())),
        KindWord::Symbols => Some(Kinded {
            kind: Kind::Symbol,
            size: 0,
        }),
        KindWord::Named(name) => {
            let number = words.domain_number(name)?;
            Some(kind_of_sets(number, words.domain(number)))
        }
    }
}
