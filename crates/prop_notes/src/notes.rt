//! What lines declared, as far as the session keeps no names of it: the domains, what is made by a
//! use of a definition, and the uses.
ghost use Rattle.std.specs.Prelude.{◌≡◌, ◌≤◌, ◌<◌, ◌++◌, ◌∷◌, [], length, map, take, IfOk, OnOk};
ghost use Rattle.std.specs.Prelude.{OnErr, IsSome, string_bytes, option_copied, bytes_eq, Ok};
ghost use Rattle.std.specs.Option.{option_map};
ghost use Rattle.prop_language.specs.Said.{by_of, passed_of, step_of, said};
ghost use Rattle.prop_notes.specs.Notes.{by_text, is_own, passed_text, most_paths, path_within};
ghost use Rattle.prop_notes.specs.Notes.{part_within, locals_within, parts_within, inner_at};
ghost use Rattle.prop_notes.specs.Notes.{definition_named, inner_of, no_notes, note_read};
ghost use Rattle.prop_notes.specs.Notes.{with_note};
ghost use Rattle.prop_notes.specs.inner.Notes.{AddsPaths, note_value};

use prop_language::{By, Command, Passed, Step};
use std::alloc::{AllocError, Global};
use std::marker::Model;

/// How many cells and how many instances of a definition are kept by their paths.
const MOST_PATHS: usize = 4_096;

/// An instance that a use makes: which of the uses within it, and within that, and so on; and what
/// it is given: what the use is given, or what stands here as text.
#[derive(Drop)]
pub struct Part {
    pub(crate) path: String,
    pub(crate) own: bool,
    pub(crate) by: String,
}

impl Model for Part {
    ghost use Rattle.std.specs.Prelude.{string_bytes};
    ghost use Rattle.prop_notes.specs.Notes as noted;

    ghost Value = { noted.Part };

    ghost view = { λ p. record {
      path = string_bytes p.path;
      own = p.own;
      by = string_bytes p.by;
    } };
}

/// A definition by its name: the paths of the cells that a use makes, and its instances, in order.
#[derive(Drop)]
pub struct Inner {
    pub(crate) name: String,
    pub(crate) locals: Vec<String>,
    pub(crate) parts: Vec<Part>,
}

impl Model for Inner {
    ghost use Rattle.std.specs.Prelude.{map, string_bytes};
    ghost use Rattle.prop_notes.specs.Notes as noted;

    ghost Value = { noted.Inner };

    ghost view = { λ d. record {
      name = string_bytes d.name;
      locals = map string_bytes d.locals.items;
      parts = d.parts.items;
    } };
}

/// A use that was attached, or what a line required: of the definition with this number, if it is
/// of one, whether it was required, what it is given as text, and how many cells and instances
/// there were before it.
#[derive(Drop)]
pub struct Use {
    pub(crate) of: Option<usize>,
    pub(crate) required: bool,
    pub(crate) by: String,
    pub(crate) cells: usize,
    pub(crate) instances: usize,
}

impl Model for Use {
    ghost use Rattle.std.specs.Prelude.{string_bytes};
    ghost use Rattle.prop_notes.specs.Notes as noted;

    ghost Value = { noted.Use };

    ghost view = { λ u. record {
      of = u.of;
      required = u.required;
      by = string_bytes u.by;
      cells = u.cells;
      instances = u.instances;
    } };
}

/// What a line declares.
#[derive(Drop)]
pub enum Note {
    Domain(String),
    Definition(Inner),
    Attached(Use),
}

/// What was declared, in order: domains by name, definitions, and uses.
#[derive(Drop)]
pub struct Notes {
    pub(crate) domains: Vec<String>,
    pub(crate) definitions: Vec<Inner>,
    pub(crate) uses: Vec<Use>,
}

impl Model for Notes {
    ghost use Rattle.std.specs.Prelude.{map, string_bytes};
    ghost use Rattle.prop_notes.specs.Notes as noted;

    ghost Value = { noted.Notes };

    ghost view = { λ n. record {
      domains = map string_bytes n.domains.items;
      definitions = n.definitions.items;
      uses = n.uses.items;
    } };
}

/// What is given, as text behind a cell.
fn by_text(alloc: Global, by: By) -> Result<String, AllocError>
    ensures { IfOk result (λ text. string_bytes text ≡ by_text (by_of by.entry)) }
{
    match by {
        By::Nothing => Ok(String::new(alloc)),
        By::Number(scale) => format!(in alloc; " by {scale}"),
        By::Relation(name) => format!(in alloc; " by {name}"),
    }
}

/// Whether a use within a definition is given what that is given.
fn is_own(passed: &Passed) -> bool
    ensures { result ≡ is_own (passed_of passed.now) }
{
    match passed {
        Passed::Own => true,
        Passed::Said(_) => false,
    }
}

/// What a use within a definition is given, as text.
fn passed_text(alloc: Global, passed: &Passed) -> Result<String, AllocError>
    ensures { IfOk result (λ text. string_bytes text ≡ passed_text (passed_of passed.now)) }
{
    match passed {
        Passed::Said(by) => by_text(alloc, *by),
        Passed::Own => Ok(String::new(alloc)),
    }
}

/// One path more, where there are not too many.
fn push_local(locals: &mut Vec<String>, path: String) -> Result<(), AllocError>
    requires few { length locals.old.items ≤ most_paths }
    ensures { OnOk result (AddsPaths (map string_bytes locals.old.items) (string_bytes path ∷ [])
        (map string_bytes locals.new.items)) }
{
    if locals.len() < MOST_PATHS {
        locals.push(path)?;
    }
    Ok(())
}

/// A local more, where there are not too many.
fn push_named(alloc: Global, locals: &mut Vec<String>, name: &str) -> Result<(), AllocError>
    requires few { length locals.old.items ≤ most_paths }
    ensures { OnOk result (AddsPaths (map string_bytes locals.old.items) (name.now ∷ [])
        (map string_bytes locals.new.items)) }
{
    push_local(locals, String::from_str(alloc, name)?)
}

/// One part more, where there are not too many.
fn push_part(parts: &mut Vec<Part>, part: Part) -> Result<(), AllocError>
    requires few { length parts.old.items ≤ most_paths }
    ensures { OnOk result (AddsPaths parts.old.items (part ∷ []) parts.new.items) }
{
    if parts.len() < MOST_PATHS {
        parts.push(part)?;
    }
    Ok(())
}

/// The paths of the cells of a use, which is that of this number within a definition.
fn push_locals(
    alloc: Global,
    locals: &mut Vec<String>,
    number: usize,
    inner: &[String],
) -> Result<(), AllocError>
    requires few { length locals.old.items ≤ most_paths }
    ensures { OnOk result (AddsPaths (map string_bytes locals.old.items)
        (map (path_within number) (map string_bytes inner.now))
        (map string_bytes locals.new.items)) }
{
    for path in inner {
        push_local(locals, format!(in alloc; "{number}.{path}")?)?;
    }
    Ok(())
}

/// A part of a use that is given this, which is that of this number within a definition.
fn part_within(
    alloc: Global,
    number: usize,
    passed: &Passed,
    part: &Part,
) -> Result<Part, AllocError>
    ensures { IfOk result (λ p. p ≡ part_within number (passed_of passed.now) part.now) }
{
    let path = &part.path;
    let path = format!(in alloc; "{number}.{path}")?;
    if part.own {
        return Ok(Part {
            path,
            own: is_own(passed),
            by: passed_text(alloc, passed)?,
        });
    }
    Ok(Part {
        path,
        own: false,
        by: String::from_str(alloc, &part.by)?,
    })
}

/// The parts of a use that is given this, which is that of this number within a definition.
fn push_parts(
    alloc: Global,
    parts: &mut Vec<Part>,
    number: usize,
    passed: &Passed,
    inner: &[Part],
) -> Result<(), AllocError>
    requires few { length parts.old.items ≤ most_paths }
    ensures { OnOk result (AddsPaths parts.old.items
        (map (part_within number (passed_of passed.now)) inner.now) parts.new.items) }
{
    for part in inner {
        push_part(parts, part_within(alloc, number, passed, part)?)?;
    }
    Ok(())
}

impl Notes {
    /// Nothing was declared. It takes no memory.
    pub fn new(alloc: Global) -> Notes
        ensures { result ≡ no_notes }
    {
        Notes {
            domains: Vec::new(alloc),
            definitions: Vec::new(alloc),
            uses: Vec::new(alloc),
        }
    }

    /// The number of the definition with this name.
    fn find(&self, name: &str) -> Option<usize>
        ensures { result ≡ definition_named self.now name.now }
    {
        self.definitions.iter().position(
            |inner: &Inner| -> bool
                ensures { result ≡ bytes_eq inner.now.name name.entry.now }
            { inner.name.as_str() == name },
        )
    }

    /// The definition with this number.
    pub(crate) fn inner_at(&self, of: Option<usize>) -> Option<&Inner>
        ensures { option_copied result ≡ inner_at self.now of }
    {
        self.definitions.get(of?)
    }

    /// What a use within a definition adds, which is that of this number.
    fn push_use(
        &self,
        alloc: Global,
        inner: &mut Inner,
        number: usize,
        name: &str,
        passed: &Passed,
    ) -> Result<(), AllocError>
        requires few_locals { length inner.old.locals ≤ most_paths }
        requires few_parts { length inner.old.parts ≤ most_paths }
        ensures name { inner.new.name ≡ inner.old.name }
        ensures locals { OnOk result (AddsPaths inner.old.locals
            (locals_within number (inner_at self.now (definition_named self.now name.now)))
            inner.new.locals) }
        ensures parts { OnOk result (AddsPaths inner.old.parts
            (parts_within number (passed_of passed.now)
            (inner_at self.now (definition_named self.now name.now))) inner.new.parts) }
    {
        match self.inner_at(self.find(name)) {
            Some(used) => {
                push_locals(alloc, &mut inner.locals, number, &used.locals)?;
                push_parts(alloc, &mut inner.parts, number, passed, &used.parts)
            }
            None => {
                let path = format!(in alloc; "{number}")?;
                let own = is_own(passed);
                let by = passed_text(alloc, passed)?;
                push_part(&mut inner.parts, Part { path, own, by })
            }
        }
    }

    /// A definition with these steps.
    fn defined(&self, alloc: Global, name: &str, steps: &[Step]) -> Result<Inner, AllocError>
        ensures { IfOk result (λ d. d ≡ inner_of self.now name.now (map step_of steps.now)) }
    {
        let mut inner = Inner {
            name: String::from_str(alloc, name)?,
            locals: Vec::new(alloc),
            parts: Vec::new(alloc),
        };
        let mut number = 0;
        for step in steps {
            match step {
                Step::Local(local, _) => push_named(alloc, &mut inner.locals, local)?,
                Step::Like(local, _) => push_named(alloc, &mut inner.locals, local)?,
                Step::Use(used, _, passed) => {
                    number += 1;
                    self.push_use(alloc, &mut inner, number, used, passed)?;
                }
            }
        }
        Ok(inner)
    }

    /// What a command declares, where there are so many cells and instances.
    pub fn note_of(
        &self,
        alloc: Global,
        command: &Command,
        cells: usize,
        instances: usize,
    ) -> Result<Option<Note>, AllocError>
        ensures ok { IfOk result (λ note. option_map note_value note
            ≡ note_read self.now cells instances (Ok (said command.now))) }
        ensures err { OnErr result (IsSome (said command.now)) }
    {
        match command {
            Command::Domain(name, _) => Ok(Some(Note::Domain(String::from_str(alloc, name)?))),
            Command::Define(name, _, steps) => {
                Ok(Some(Note::Definition(self.defined(alloc, name, steps)?)))
            }
            Command::Attach(name, _, by) => Ok(Some(Note::Attached(Use {
                of: self.find(name),
                required: false,
                by: by_text(alloc, *by)?,
                cells,
                instances,
            }))),
            _ => Ok(None),
        }
    }

    /// How many domains, definitions and uses are noted.
    pub fn counts(&self) -> (usize, usize, usize)
        ensures { result ≡ (
          length self.now.domains,
          length self.now.definitions,
          length self.now.uses,
        ) }
    {
        (self.domains.len(), self.definitions.len(), self.uses.len())
    }

    /// One note more. After want of memory nothing has changed.
    pub fn add(&mut self, note: Note) -> Result<(), AllocError>
        ensures ok { OnOk result (self.new ≡ with_note self.old (note_value note)) }
        ensures err { OnErr result (self.new ≡ self.old) }
    {
        match note {
            Note::Domain(name) => self.domains.push(name)?,
            Note::Definition(inner) => self.definitions.push(inner)?,
            Note::Attached(made) => self.uses.push(made)?,
        }
        Ok(())
    }

    /// Only the first domains, definitions and uses stay noted.
    pub fn back(&mut self, domains: usize, definitions: usize, uses: usize)
        ensures { self.new ≡ record {
          domains = take domains self.old.domains;
          definitions = take definitions self.old.definitions;
          uses = take uses self.old.uses;
        } }
    {
        self.domains.truncate(domains);
        self.definitions.truncate(definitions);
        self.uses.truncate(uses);
    }
}
