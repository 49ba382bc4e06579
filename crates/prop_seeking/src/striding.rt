//! A step of a question for points, told.
ghost use Rattle.std.specs.Prelude.{◌≡◌, map, string_bytes, IfOk};
ghost use Rattle.prop_seeking.specs.inner.Pieces.{step_text};

use crate::seeker::Seeker;
use crate::texts::{push_lines, seen, side_text};
use prop_facts::{Fact, Literal};
use prop_guards::Guarded;
use prop_lattice::Info;
use prop_refuting::Nogood;
use prop_scheduler::Order;
use prop_solve::{News, Solver};
use prop_trail::Source;
use std::alloc::{AllocError, Global};
use std::fmt::Write;

/// What came of a step of a question.
#[derive(Clone, Copy)]
pub(crate) enum Stride {
    /// This was done.
    Did(News),
    /// Points were found.
    Found,
    /// No others fit, or the question stays unsettled: it says which where it is asked again.
    Over,
    /// Nothing that is told, by many steps.
    Nothing,
}

/// Lines behind a first one that says how many follow.
fn step_text(alloc: Global, lines: &[String]) -> Result<String, AllocError>
    ensures { IfOk result (λ text.
        string_bytes text ≡ step_text (map string_bytes lines.now)) }
{
    let count = lines.len();
    let mut text = format!(in alloc; "step {count}")?;
    push_lines(&mut text, lines)?;
    Ok(text)
}

/// These two lines.
fn two(alloc: Global, one: String, other: String) -> Result<Vec<String>, AllocError> {
    let mut lines = Vec::new(alloc);
    lines.push(one)?;
    lines.push(other)?;
    Ok(lines)
}

/// This line alone.
fn one(alloc: Global, line: &str) -> Result<Vec<String>, AllocError> {
    let mut lines = Vec::new(alloc);
    lines.push(String::from_str(alloc, line)?)?;
    Ok(lines)
}

impl<R: Guarded + Drop, O: Order + Drop> Seeker<R, O> {
    ghost use Rattle.std.specs.Prelude.{◌≡◌, ◌++◌, List, ℕ, codes, string_bytes, IfOk};

    /// What a step of a question is told as.
    pub(crate) fn stride_text(&self, solver: &Solver, stride: Stride) -> Result<String, AllocError>
        ensures { IfOk result (λ text.
            (rest : List ℕ) × (string_bytes text ≡ codes "step " ++ rest)) }
    {
        let alloc = self.teller.session().alloc();
        let lines = match stride {
            Stride::Did(news) => self.news_lines(solver, news)?,
            Stride::Found => one(alloc, "plan")?,
            Stride::Over => one(alloc, "end")?,
            Stride::Nothing => Vec::new(alloc),
        };
        step_text(alloc, &lines)
    }

    /// The lines that tell what a search did.
    fn news_lines(&self, solver: &Solver, news: News) -> Result<Vec<String>, AllocError> {
        let alloc = self.teller.session().alloc();
        match news {
            News::Said {
                place,
                info,
                by,
                level,
            } => {
                let by = self.source_text(solver, by, level)?;
                two(alloc, by, self.info_text(place, info)?)
            }
            News::Learned { number, level } => self.lesson_lines(solver, number, level),
            News::Began => one(alloc, "back: 0"),
        }
    }

    /// A nogood, on which premises it rests, and to how many suppositions it goes back.
    fn lesson_lines(
        &self,
        solver: &Solver,
        number: Option<usize>,
        level: usize,
    ) -> Result<Vec<String>, AllocError> {
        let alloc = self.teller.session().alloc();
        let mut lines = Vec::new(alloc);
        if let Some(nogood) = number.and_then(|number| solver.nogood(number)) {
            let facts = self.facts_text(nogood)?;
            lines.push(format!(in alloc; "nogood:{facts}")?)?;
            let premises = self.names_text(nogood)?;
            lines.push(format!(in alloc; "because{premises}")?)?;
        }
        lines.push(format!(in alloc; "back: {level}")?)?;
        Ok(lines)
    }

    /// Who said something, where so much is supposed.
    fn source_text(&self, solver: &Solver, by: Source, level: usize) -> Result<String, AllocError> {
        let alloc = self.teller.session().alloc();
        match by {
            Source::Decision => format!(in alloc; "supposed: {level}"),
            Source::Call(number) => self.call_text(number),
            Source::Nogood(number) => match solver.nogood(number) {
                Some(nogood) => {
                    let facts = self.facts_text(nogood)?;
                    format!(in alloc; "denied:{facts}")
                }
                None => String::from_str(alloc, "denied:"),
            },
            Source::Side(number) => self.taken_text(solver, number),
        }
    }

    /// The side of a choice under which a statement stands.
    fn taken_text(&self, solver: &Solver, number: usize) -> Result<String, AllocError> {
        let session = self.teller.session();
        let alloc = session.alloc();
        let Some(sided) = solver.sided(number) else {
            return String::from_str(alloc, "side:");
        };
        let bits = 1u64.checked_shl(u32::from(sided.side)).unwrap_or(0);
        let label = self.place_text(sided.choice, Info::from_bits(bits))?;
        format!(in alloc; "side: {label}")
    }

    /// An instance by its number, with its procedure, its inputs and its output.
    fn call_text(&self, number: usize) -> Result<String, AllocError> {
        let session = self.teller.session();
        let alloc = session.alloc();
        let network = session.live().network();
        let mut text = format!(in alloc; "called: {number}")?;
        if number >= network.instances() {
            return Ok(text);
        }
        let x = network.data().instance(number);
        if x.procedure() < network.library().len() {
            let name = network.library().get(x.procedure()).name();
            write!(text, " {name}")?;
        }
        for cell in x.inputs() {
            let name = self.cell_text(*cell)?;
            write!(text, " {name}")?;
        }
        let output = self.cell_text(x.output())?;
        write!(text, " {output}")?;
        Ok(text)
    }

    /// The facts of a nogood, each with one space before it.
    fn facts_text(&self, nogood: &Nogood) -> Result<String, AllocError> {
        let mut text = String::new(self.teller.session().alloc());
        for literal in nogood.literals() {
            let fact = self.fact_text(*literal)?;
            write!(text, " {fact}")?;
        }
        Ok(text)
    }

    /// The premises of a nogood, each with one space before it.
    fn names_text(&self, nogood: &Nogood) -> Result<String, AllocError> {
        let session = self.teller.session();
        let premises = session.search().premises();
        let mut text = String::new(session.alloc());
        for premise in nogood.premises().iter() {
            if usize::from(premise) < premises.len() {
                let name = premises.name(premise);
                write!(text, " {name}")?;
            }
        }
        if text.is_empty() {
            write!(text, " no premise")?;
        }
        Ok(text)
    }

    /// A fact about a place.
    fn fact_text(&self, literal: Literal) -> Result<String, AllocError> {
        let alloc = self.teller.session().alloc();
        let Literal { place, fact } = literal;
        let name = self.cell_text(place)?;
        match fact {
            Fact::AtLeast(n) => format!(in alloc; "{name}>={n}"),
            Fact::AtMost(n) => format!(in alloc; "{name}<={n}"),
            Fact::Other(n) => format!(in alloc; "{name}<>{n}"),
            _ => self.place_text(place, fact.info()),
        }
    }

    /// What is believed of a place, as `why` says it of a cell.
    fn info_text(&self, place: usize, info: Info) -> Result<String, AllocError> {
        let session = self.teller.session();
        if place >= session.live().network().cells() {
            return self.place_text(place, info);
        }
        let name = self.cell_text(place)?;
        let value = self.print(place, info)?;
        format!(in session.alloc(); "{name} = {value}")
    }

    /// The same without a space; of a choice the sides that are left.
    fn place_text(&self, place: usize, info: Info) -> Result<String, AllocError> {
        let session = self.teller.session();
        let cells = session.live().network().cells();
        if place >= cells {
            return self.sides_text(place - cells, info);
        }
        let name = self.cell_text(place)?;
        let value = self.print(place, info)?;
        format!(in session.alloc(); "{name}={value}")
    }

    /// The text of what a cell is.
    fn print(&self, cell: usize, info: Info) -> Result<String, AllocError> {
        let session = self.teller.session();
        let kind = self.kind(cell);
        session
            .words()
            .print_value(session.alloc(), kind, seen(info))
    }

    /// Of a choice the label of the first side that is left, with the numbers of others behind it.
    fn sides_text(&self, number: usize, info: Info) -> Result<String, AllocError> {
        let session = self.teller.session();
        let alloc = session.alloc();
        let premises = session.search().premises();
        let mut text = String::new(alloc);
        let Some(choice) = premises.choices().get(number) else {
            return Ok(text);
        };
        let Info::Set(left) = info else {
            return Ok(text);
        };
        for side in 0..choice.sides.min(64) {
            if left.bits() >> side & 1 == 1 {
                let number = side + 1;
                if text.is_empty() {
                    let label = side_text(alloc, premises, *choice, number)?;
                    write!(text, "{label}")?;
                } else {
                    write!(text, "|{number}")?;
                }
            }
        }
        Ok(text)
    }

    /// A cell by its name, or by `#` and its number where it has none.
    fn cell_text(&self, cell: usize) -> Result<String, AllocError> {
        let session = self.teller.session();
        match session.names().name_of(cell) {
            Some(name) => String::from_str(session.alloc(), name),
            None => format!(in session.alloc(); "#{cell}"),
        }
    }
}
