//! Moments: seconds since 1970-01-01T00:00:00Z, and their civil date and time.
ghost use Rattle.std.specs.Prelude.{◌≡◌, ℕ, ◌<◌, ◌≤◌, ℤ, pos, List, All, length};
ghost use Rattle.gw_base.specs.Ident.{IsPrintable};
ghost use Rattle.gw_base.specs.inner.DateTime.{IsDateTimeOf};
ghost use Rattle.gw_base.specs.Digits.{digits};
ghost use Rattle.gw_base.specs.Moment.{civil_at, last_moment, moment_of, stamp_of, IsCivil, IsMoment, IsStamp};

use jiff::Timestamp;
use jiff::civil::DateTime;
use jiff::tz::Offset;

/// A civil date and time of day in UTC.
#[derive(Clone, Copy)]
pub(crate) struct Civil {
    year: u16,
    month: u8,
    day: u8,
    hour: u8,
    minute: u8,
    second: u8,
}

/// The last moment, 9999-01-01T00:00:00Z.
pub const LAST_MOMENT: i64 = 253_370_764_800;

/// A number of seconds since 1970-01-01T00:00:00Z, taken into the range of moments.
pub fn to_moment(now: i64) -> i64
    ensures value { result ≡ pos (moment_of now) }
    ensures moment { IsMoment result }
{
    now.clamp(0, LAST_MOMENT)
}

/// The text `YYYY-MM-DDTHH:MM:SSZ` of a number of seconds since 1970-01-01T00:00:00Z, taken into the range
/// of moments.
pub fn stamp(now: i64) -> [u8; 20]
    ensures value { result ≡ stamp_of now }
    ensures civil { IsStamp (moment_of now) result }
{
    let civil = civil_of(now);
    let [c1, c2] = two_digits((civil.year / 100) as u8);
    let [y1, y2] = two_digits((civil.year % 100) as u8);
    let [m1, m2] = two_digits(civil.month);
    let [d1, d2] = two_digits(civil.day);
    let [h1, h2] = two_digits(civil.hour);
    let [n1, n2] = two_digits(civil.minute);
    let [s1, s2] = two_digits(civil.second);
    [
        c1, c2, y1, y2, b'-', m1, m2, b'-', d1, d2, b'T', h1, h2, b':', n1, n2, b':', s1, s2, b'Z',
    ]
}

/// The civil date and time in UTC of a number of seconds, taken into the range of moments.
fn civil_of(now: i64) -> Civil
    ensures value { result ≡ civil_at (moment_of now) }
    ensures civil { IsCivil result }
{
    let date_time = date_time_at(now);
    Civil {
        year: date_time.year() as u16,
        month: date_time.month() as u8,
        day: date_time.day() as u8,
        hour: date_time.hour() as u8,
        minute: date_time.minute() as u8,
        second: date_time.second() as u8,
    }
}

/// The date and time that `jiff` makes of a number of seconds, taken into the range of moments.
///
/// The calendar is `jiff`'s; the definitions count days by years and months, and the two are proved to agree.
fn date_time_at(now: i64) -> DateTime
    ensures { IsDateTimeOf (civil_at (moment_of now)) result }
{
    match Timestamp::from_second(to_moment(now)) {
        Ok(timestamp) => Offset::UTC.to_datetime(timestamp),
        Err(_) => unreachable!(),
    }
}

/// The two ASCII digits of a number.
fn two_digits(number: u8) -> [u8; 2]
    requires { number < 100 }
    ensures { result ≡ digits 2 number }
{
    [b'0' + number / 10, b'0' + number % 10]
}

/// Each text of a moment's civil date and time is that moment's stamp, and a stamp is 20 printable bytes.
pub fn law_stamp()
    ensures only { (moment : ℕ) → moment ≤ last_moment
        → (text : List ℕ) → IsStamp moment text → text ≡ stamp_of (pos moment) }
    ensures plain { (now : ℤ) → (length (stamp_of now) ≡ 20) × All IsPrintable (stamp_of now) }
{}
