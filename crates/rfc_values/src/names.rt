//! The names of days and months.
ghost use Rattle.std.{specs.Prelude.◌≡◌, specs.Int.IsInRange};
ghost use Rattle.httpdate.specs.Text as Text;

/// Returns the first three letters of a day's name; Monday is 1.
pub fn day_name(weekday: u8) -> &'static [u8; 3]
    requires { IsInRange 1 7 weekday }
    ensures { result.now ≡ Text.day_name weekday }
{
    match weekday {
        1 => b"Mon",
        2 => b"Tue",
        3 => b"Wed",
        4 => b"Thu",
        5 => b"Fri",
        6 => b"Sat",
        _ => b"Sun",
    }
}

/// Returns what a day's name has after its first three letters; Monday is 1.
pub fn day_name_rest(weekday: u8) -> &'static [u8]
    requires { IsInRange 1 7 weekday }
    ensures { result.now ≡ Text.day_name_rest weekday }
{
    match weekday {
        2 => b"sday",
        3 => b"nesday",
        4 => b"rsday",
        6 => b"urday",
        _ => b"day",
    }
}

/// Returns the first three letters of a month's name; January is 1.
pub fn month_name(month: u8) -> &'static [u8; 3]
    requires { IsInRange 1 12 month }
    ensures { result.now ≡ Text.month_name month }
{
    match month {
        1 => b"Jan",
        2 => b"Feb",
        3 => b"Mar",
        4 => b"Apr",
        5 => b"May",
        6 => b"Jun",
        7 => b"Jul",
        8 => b"Aug",
        9 => b"Sep",
        10 => b"Oct",
        11 => b"Nov",
        _ => b"Dec",
    }
}
