ghost use Rattle.std.specs.Prelude.{◌≡◌, []};
ghost use Rattle.gap_text.specs.Nest.{view};
ghost use Rattle.gap_text.specs.States.{Gives, Takes, state_of};
ghost use Rattle.gap_text.specs.Readers.{reader_of, fed, rest, begun, at_start};

use crate::byte::Class;
use crate::fault::TextFault;
use crate::nest::Nest;
use crate::state::State;
use std::alloc::Global;

/// The least number that is too big.
const TOO_BIG: u64 = 4_294_967_296;

/// What the bytes so far have begun. The value of digits is held at `TOO_BIG` once it is that or more.
#[derive(Clone, Copy)]
pub enum Mode {
    Between,
    Comment,
    Dot { place: u32 },
    Digits { place: u32, value: u64 },
}

/// What the bytes so far leave.
#[derive(Drop)]
pub struct Reader {
    alloc: Global,
    state: State,
    mode: Mode,
}

impl Reader {
    pub fn new(alloc: Global) -> Reader
        ensures { reader_of result ≡ at_start }
    {
        Reader {
            alloc,
            state: State::new(alloc),
            mode: Mode::Between,
        }
    }

    /// After one more byte.
    pub fn feed(&mut self, place: u32, class: Class) -> Result<(), TextFault>
        ensures { Takes (fed (reader_of self.old) place class) (reader_of self.new) result }
    {
        match self.mode {
            Mode::Between => self.begin(place, class),
            Mode::Comment => {
                if let Class::LineFeed = class {
                    self.mode = Mode::Between;
                }
                Ok(())
            }
            Mode::Dot { place: first } => match class {
                Class::Point => {
                    self.state.after_dots(first)?;
                    self.mode = Mode::Between;
                    Ok(())
                }
                _ => Err(TextFault::BadByte(first)),
            },
            Mode::Digits {
                place: first,
                value,
            } => match class {
                Class::Digit(digit) => {
                    let value = value
                        .saturating_mul(10)
                        .saturating_add(u64::from(digit))
                        .min(TOO_BIG);
                    self.mode = Mode::Digits {
                        place: first,
                        value,
                    };
                    Ok(())
                }
                class => {
                    self.state.after_number(first, value)?;
                    self.begin(place, class)
                }
            },
        }
    }

    /// After a byte where nothing is begun.
    fn begin(&mut self, place: u32, class: Class) -> Result<(), TextFault>
        ensures { Takes (begun (state_of self.old.state) place class) (reader_of self.new) result }
    {
        self.mode = Mode::Between;
        match class {
            Class::LeftBracket => self.state.after_open(self.alloc, place),
            Class::RightBracket => self.state.after_close(self.alloc, place),
            Class::CommaSign => self.state.after_comma(place),
            Class::SemicolonSign => self.state.after_semicolon(place),
            Class::Blank | Class::LineFeed => Ok(()),
            Class::Hash => {
                self.mode = Mode::Comment;
                Ok(())
            }
            Class::Point => {
                self.mode = Mode::Dot { place };
                Ok(())
            }
            Class::Digit(digit) => {
                self.mode = Mode::Digits {
                    place,
                    value: u64::from(digit),
                };
                Ok(())
            }
            Class::Other => Err(TextFault::BadByte(place)),
        }
    }

    /// The value, at the end of the text.
    pub fn into_value(self, place: u32) -> Result<Nest, TextFault>
        ensures { Gives view (rest (reader_of self) place []) result }
    {
        let Reader {
            alloc: _,
            mut state,
            mode,
        } = self;
        match mode {
            Mode::Between | Mode::Comment => state.into_value(place),
            Mode::Dot { place: first } => Err(TextFault::BadByte(first)),
            Mode::Digits {
                place: first,
                value,
            } => {
                state.after_number(first, value)?;
                state.into_value(place)
            }
        }
    }
}
