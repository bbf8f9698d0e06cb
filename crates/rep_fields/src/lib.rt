//! The fields that the lines of a recorder are made of: numbers and texts of a fixed width, dates, stamps and ids, as
//! Portaria MTP 671/2021, annexes V and VI, writes them. Each has a strict reader, which answers `None` exactly where
//! the bytes are not those of a value, and a writer. No call takes memory.
#![tactic(auto)]

mod calendar;
mod check;
mod cpf;
mod day;
mod digits;
mod employer;
mod field_laws;
mod latin;
mod laws;
mod number;
mod offset;
mod pairs;
mod rep_number;
mod row;
mod stamp;
mod text;
mod time_of_day;

pub use calendar::{CalendarDate, date_by_steps};
pub use cpf::{CPF_DIGITS, Cpf};
pub use day::{Day, LAST_DAY};
pub use digits::{MOST_DIGITS, get_n, put_n};
pub use employer::{EMPLOYER_DIGITS, EmployerId};
pub use field_laws::{fields_have_one_text, fields_tell_values_apart};
pub use latin::{get_a, is_latin, put_a};
pub use laws::{steps_count_days, texts_tell_values_apart};
pub use number::read_decimal;
pub use offset::{GREATEST_OFFSET, read_offset};
pub use rep_number::{REP_NUMBER_LEN, RepNumber};
pub use row::Row;
pub use stamp::{LAST_LOCAL, Loose, Stamp};
pub use text::Text;
pub use time_of_day::{MINUTES_OF_DAY, read_time_of_day, write_time_of_day};
