//! The words of the command line, and the commands that they are.

ghost use Rattle.std.specs.Prelude.{◌≡◌, IfSome, IfNone};
ghost use Rattle.sg_cli.specs.Words.{IsCommand, IsNoCommand, IsSeenAs, Given, HasArguments, AreNone, family, written, seen, texts};
ghost use Rattle.sg_cli.specs.Inputs.{input_for};
ghost use Rattle.sg_cli.specs.declared.words.Name as names;

mod changes;
mod numbers;
mod pairs;
mod points;

use basis_change::cell::CellChange;
use basis_change::parts::Change;
use changes::{read_basis, read_cell};
use exact_ops::Point;
use grid_tags::GridSize;
use numbers::{read_box, read_grid, read_index, read_seed};
use pairs::read_pairs;
use phase_rules::{Index, Pairs};
use points::read_point;
use reflections::BoxSize;

/// What the words ask for.
#[derive(Clone, Copy, Debug)]
pub enum Command {
    /// The operators of the group.
    Ops,
    /// The operators with their kinds, intrinsic parts and axes.
    Types,
    /// The site-symmetry group of a point, and its orbit.
    Site(Point),
    /// One reflection, with Friedel's law or without it.
    Index(Index, Pairs),
    /// The classes of a box of reflections.
    Refl(BoxSize, Pairs),
    /// The orbits of the points of a grid.
    Grid(GridSize),
    /// The operators of the group in another basis.
    Basis(Change),
    /// The operators of the group in another cell, whose volume may differ.
    Recell(CellChange),
    /// The rows of the table of Wyckoff positions.
    Wyckoff,
    /// The rows in free parameters.
    Params,
    /// The operators and the rows, as JSON.
    Report,
    /// The row that a point fits.
    Fit(Point),
    /// The operators, their types, the rows, and the classes of a box of reflections.
    Table(BoxSize, Pairs),
    /// A made group, and how many of the points that are made from the seed fit each row of its table.
    Sample(u32),
    /// Labelled sites, each expanded to the points of its orbit in the cell.
    Atoms,
    /// Measured reflections, merged by classes with Friedel's law or without it.
    Merge(Pairs),
    /// Values at the points of a grid, summed over the orbits.
    Map(GridSize),
}

/// What a command is answered over.
#[derive(Clone, Copy, Debug)]
pub enum Input {
    /// The made group that this seed asks for. Nothing is read.
    Made(u32),
    /// The group of the operators of the input.
    Operators,
    /// The group of the operators before the divider of the input, and the data lines behind it.
    OperatorsAndData,
}

impl Command {
    /// What it is answered over.
    pub fn input(&self) -> Input
        ensures { result ≡ input_for (seen self.now) }
    {
        match self {
            Command::Sample(seed) => Input::Made(*seed),
            Command::Atoms | Command::Merge(_) | Command::Map(_) => Input::OperatorsAndData,
            _ => Input::Operators,
        }
    }
}

/// The names of the commands.
#[derive(Clone, Copy, PartialEq, Eq)]
pub enum Name {
    Ops,
    Types,
    Site,
    Index,
    Refl,
    Grid,
    Basis,
    Recell,
    Wyckoff,
    Params,
    Report,
    Fit,
    Table,
    Sample,
    Atoms,
    Merge,
    Map,
}

/// The command that the words are. None exactly where they are no command in range.
pub fn read_words(words: &[String]) -> Option<Command>
    ensures some { IfSome result (IsCommand (texts words.now)) }
    ensures none { IfNone result (IsNoCommand (texts words.now)) }
{
    let [word, arguments @ ..] = words else {
        return None;
    };
    let name = name_of(word.as_str())?;
    read_arguments(name, arguments)
}

/// The name that is written so.
fn name_of(word: &str) -> Option<Name>
    ensures some { IfSome result (λ name. word.now ≡ written name) }
    ensures none { IfNone result ((name : names.Name) → word.now ≡ written name → ⊥) }
{
    match word {
        "ops" => Some(Name::Ops),
        "types" => Some(Name::Types),
        "site" => Some(Name::Site),
        "index" => Some(Name::Index),
        "refl" => Some(Name::Refl),
        "grid" => Some(Name::Grid),
        "basis" => Some(Name::Basis),
        "recell" => Some(Name::Recell),
        "wyckoff" => Some(Name::Wyckoff),
        "params" => Some(Name::Params),
        "report" => Some(Name::Report),
        "fit" => Some(Name::Fit),
        "table" => Some(Name::Table),
        "sample" => Some(Name::Sample),
        "atoms" => Some(Name::Atoms),
        "merge" => Some(Name::Merge),
        "map" => Some(Name::Map),
        _ => None,
    }
}

/// The command of this name with these arguments.
fn read_arguments(name: Name, arguments: &[String]) -> Option<Command>
    ensures some { IfSome result (IsSeenAs name (texts arguments.now)) }
    ensures none { IfNone result ((given : Given (family name))
        → HasArguments (family name) given (texts arguments.now) → ⊥) }
{
    match name {
        Name::Ops => no_arguments(arguments, Command::Ops),
        Name::Types => no_arguments(arguments, Command::Types),
        Name::Site => Some(Command::Site(read_point(arguments)?)),
        Name::Index => {
            let (index, pairs) = read_index(arguments)?;
            Some(Command::Index(index, pairs))
        }
        Name::Refl => {
            let (size, pairs) = read_box(arguments)?;
            Some(Command::Refl(size, pairs))
        }
        Name::Grid => Some(Command::Grid(read_grid(arguments)?)),
        Name::Basis => Some(Command::Basis(read_basis(arguments)?)),
        Name::Recell => Some(Command::Recell(read_cell(arguments)?)),
        Name::Wyckoff => no_arguments(arguments, Command::Wyckoff),
        Name::Params => no_arguments(arguments, Command::Params),
        Name::Report => no_arguments(arguments, Command::Report),
        Name::Fit => Some(Command::Fit(read_point(arguments)?)),
        Name::Table => {
            let (size, pairs) = read_box(arguments)?;
            Some(Command::Table(size, pairs))
        }
        Name::Sample => Some(Command::Sample(read_seed(arguments)?)),
        Name::Atoms => no_arguments(arguments, Command::Atoms),
        Name::Merge => Some(Command::Merge(read_pairs(arguments)?)),
        Name::Map => Some(Command::Map(read_grid(arguments)?)),
    }
}

/// The command, where no arguments follow it.
fn no_arguments(arguments: &[String], command: Command) -> Option<Command>
    ensures some { IfSome result (λ found. (found ≡ command) × AreNone (texts arguments.now)) }
    ensures none { IfNone result (AreNone (texts arguments.now) → ⊥) }
{
    if !arguments.is_empty() {
        return None;
    }
    Some(command)
}
