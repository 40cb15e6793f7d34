ghost use Rattle.std.specs.Prelude.{◌≡◌, ◌+◌, ◌≤◌, ◌++◌, length};
ghost use Rattle.triplet_text.specs.declared.text.TheConstants.{TEXT_ROOM as ROOM};
ghost use Rattle.sg_cli.specs.Fault.{fault_of_read, fault_of_lines, fault_of_close, fault_of_grid, fault_of_change, fault_of_recell, fault_of_atoms, fault_of_data, fault_of_values, fault_of_write, fault_of_want, status_of, text_of, at_line};

use atom_expand::AtomFault;
use basis_change::basis::ChangeFault;
use basis_change::cell::RecellFault;
use data_lines::DataFault;
use exact_ops::{NoMemory, UNIT};
use grid_tags::GridFault;
use group_closure::{CloseFault, MAX_OPERATORS};
use itoa::Buffer;
use map_sym::ValueFault;
use sg_io::{ReadStop, SinkStop};
use triplet_text::{LineFault, Text};

/// Why no answer, or not the whole of it, was printed.
#[derive(Clone, Copy, Debug, PartialEq, Eq)]
pub enum Fault {
    /// The words are no command in range.
    Words,
    /// The input could not be read.
    Reading,
    /// The input has more bytes than are allowed.
    TooLong,
    /// The first bad line has this number, counted from 1, and is no triplet.
    Unreadable(u32),
    /// The first bad line has this number, and is a triplet whose matrix has no whole inverse.
    NotUnimodular(u32),
    /// The operators generate more than `MAX_OPERATORS`, or one with an entry outside -2..=2.
    Unclosed,
    /// The first bad data line has this number.
    BadData(u32),
    /// There are more sites than `MAX_ATOMS`.
    TooManySites,
    /// The number of values is not that of the grid points of a cell.
    WrongCount,
    /// The group does not keep the grid.
    NotKept,
    /// The translation by one changed cell along some axis is no changed element.
    NotCell,
    /// A changed operator has an entry that is not whole.
    NotWhole,
    /// A changed operator has an entry outside -2..=2.
    TooWide,
    /// A changed operator has a translation that is not whole in parts of a cell.
    TooFine,
    /// The changed group has more than `MAX_OPERATORS` operators.
    TooMany,
    /// The output could not be written.
    Writing,
    /// Memory was wanted.
    NoMemory,
}

impl Fault {
    /// The status that the program ends with.
    pub fn status(self) -> u8
        ensures { result ≡ status_of self }
    {
        match self {
            Fault::Words => 2,
            Fault::Reading => 3,
            Fault::TooLong => 10,
            Fault::Unreadable(_) => 5,
            Fault::NotUnimodular(_) => 6,
            Fault::Unclosed => 7,
            Fault::BadData(_) => 11,
            Fault::TooManySites | Fault::WrongCount => 12,
            Fault::NotKept
            | Fault::NotCell
            | Fault::NotWhole
            | Fault::TooWide
            | Fault::TooFine
            | Fault::TooMany => 8,
            Fault::Writing => 4,
            Fault::NoMemory => 9,
        }
    }

    /// The line that is told of it, with its line feed.
    pub fn text(self) -> Text
        ensures { result ≡ text_of self }
    {
        let mut text = Text::new();
        match self {
            Fault::Words => text.push(b"sg: words are not a command in range\n"),
            Fault::Reading => text.push(b"sg: reading failed\n"),
            Fault::TooLong => text.push(b"sg: input too long\n"),
            Fault::Unreadable(line) => push_at_line(&mut text, line, b": not a triplet\n"),
            Fault::NotUnimodular(line) => push_at_line(&mut text, line, b": not unimodular\n"),
            Fault::Unclosed => text.push(b"sg: operators do not close\n"),
            Fault::BadData(line) => push_at_line(&mut text, line, b": not a data line\n"),
            Fault::TooManySites => text.push(b"sg: too many data lines\n"),
            Fault::WrongCount => text.push(b"sg: wrong number of values\n"),
            Fault::NotKept => text.push(b"sg: grid is not kept\n"),
            Fault::NotCell => text.push(b"sg: changed cell is no lattice cell\n"),
            Fault::NotWhole => text.push(b"sg: changed entry is not whole\n"),
            Fault::TooWide => text.push(b"sg: changed entry beyond 2\n"),
            Fault::TooFine => {
                text.push(b"sg: changed translation is finer than 1/");
                text.push(Buffer::new().format(UNIT).as_bytes());
                text.push(b"\n");
            }
            Fault::TooMany => {
                text.push(b"sg: changed group has more than ");
                text.push(Buffer::new().format(MAX_OPERATORS).as_bytes());
                text.push(b" operators\n");
            }
            Fault::Writing => text.push(b"sg: writing failed\n"),
            Fault::NoMemory => text.push(b"sg: no memory\n"),
        }
        text
    }
}

/// Adds what is told of a line of the input.
fn push_at_line(text: &mut Text, line: u32, what: &[u8])
    requires { length text.old + length what.now + 32 ≤ ROOM }
    ensures { text.new ≡ text.old ++ at_line line what.now }
{
    text.push(b"sg: line ");
    text.push(Buffer::new().format(line).as_bytes());
    text.push(what);
}

impl From<ReadStop> for Fault {
    ghost from_gives = { λ stop fault. fault ≡ fault_of_read stop };

    fn from(stop: ReadStop) -> Fault {
        match stop {
            ReadStop::NoMemory => Fault::NoMemory,
            ReadStop::Failed => Fault::Reading,
            ReadStop::TooLong => Fault::TooLong,
        }
    }
}

impl From<LineFault> for Fault {
    ghost from_gives = { λ stop fault. fault ≡ fault_of_lines stop };

    fn from(stop: LineFault) -> Fault {
        match stop {
            LineFault::Unreadable(line) => Fault::Unreadable(line),
            LineFault::NotUnimodular(line) => Fault::NotUnimodular(line),
            LineFault::NoMemory => Fault::NoMemory,
        }
    }
}

impl From<CloseFault> for Fault {
    ghost from_gives = { λ stop fault. fault ≡ fault_of_close stop };

    fn from(stop: CloseFault) -> Fault {
        match stop {
            CloseFault::Unclosed => Fault::Unclosed,
            CloseFault::NoMemory => Fault::NoMemory,
        }
    }
}

impl From<GridFault> for Fault {
    ghost from_gives = { λ stop fault. fault ≡ fault_of_grid stop };

    fn from(stop: GridFault) -> Fault {
        match stop {
            GridFault::NotKept => Fault::NotKept,
            GridFault::NoMemory => Fault::NoMemory,
        }
    }
}

impl From<ChangeFault> for Fault {
    ghost from_gives = { λ stop fault. fault ≡ fault_of_change stop };

    fn from(stop: ChangeFault) -> Fault {
        match stop {
            ChangeFault::Wide => Fault::TooWide,
            ChangeFault::NoMemory => Fault::NoMemory,
        }
    }
}

impl From<RecellFault> for Fault {
    ghost from_gives = { λ stop fault. fault ≡ fault_of_recell stop };

    fn from(stop: RecellFault) -> Fault {
        match stop {
            RecellFault::NotCell => Fault::NotCell,
            RecellFault::NotWhole => Fault::NotWhole,
            RecellFault::Wide => Fault::TooWide,
            RecellFault::Fine => Fault::TooFine,
            RecellFault::Many => Fault::TooMany,
            RecellFault::NoMemory => Fault::NoMemory,
        }
    }
}

impl From<AtomFault> for Fault {
    ghost from_gives = { λ stop fault. fault ≡ fault_of_atoms stop };

    fn from(stop: AtomFault) -> Fault {
        match stop {
            AtomFault::Bad(line) => Fault::BadData(line),
            AtomFault::Many => Fault::TooManySites,
            AtomFault::NoMemory => Fault::NoMemory,
        }
    }
}

impl From<SinkStop> for Fault {
    ghost from_gives = { λ stop fault. fault ≡ fault_of_write stop };

    fn from(stop: SinkStop) -> Fault {
        match stop {
            SinkStop::Failed => Fault::Writing,
            SinkStop::NoMemory => Fault::NoMemory,
        }
    }
}

impl From<NoMemory> for Fault {
    ghost from_gives = { λ want fault. fault ≡ fault_of_want want };

    fn from(_: NoMemory) -> Fault {
        Fault::NoMemory
    }
}

impl From<DataFault> for Fault {
    ghost from_gives = { λ stop fault. fault ≡ fault_of_data stop };

    fn from(stop: DataFault) -> Fault {
        match stop {
            DataFault::Bad(line) => Fault::BadData(line),
            DataFault::NoMemory => Fault::NoMemory,
        }
    }
}

impl From<ValueFault> for Fault {
    ghost from_gives = { λ stop fault. fault ≡ fault_of_values stop };

    fn from(stop: ValueFault) -> Fault {
        match stop {
            ValueFault::Bad(line) => Fault::BadData(line),
            ValueFault::Count(_) => Fault::WrongCount,
            ValueFault::NoMemory => Fault::NoMemory,
        }
    }
}
