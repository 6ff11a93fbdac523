// A release date by its fields: 1982, 1982-03, 1982-03-15, and behind it 14:30:05 and the zone, -2h+30m. Month and day are shown where they
// are given, and as 00 where only what stands behind them is; of hour, minute, second, zone hours and zone minutes each is shown where the
// text has its byte. Numbers outside 001's ranges are shown as they stand.
use std::io;

// A mark and a number of at least two digits, where it is shown.
fn say_field(rt: &HostRuntime, shown: bool, mark: &str, v: u8) -> io::Result<()> {
    if shown {
        print!(rt; "{mark}{v:02}")?;
    }
    Ok(())
}

pub fn say_date(rt: &HostRuntime, text: &[u8]) -> io::Result<()> {
    let n = text.len();
    let d = metadata::date_of(text);
    let to_day = d.day.is_some() || 3 < n;
    print!(rt; "{}", d.year)?;
    say_field(rt, d.month.is_some() || to_day, "-", d.month.unwrap_or(0))?;
    say_field(rt, to_day, "-", d.day.unwrap_or(0))?;
    say_field(rt, 3 < n, " ", d.hour)?;
    say_field(rt, 4 < n, ":", d.minute)?;
    say_field(rt, 5 < n, ":", d.second)?;
    if 6 < n {
        let sign = if d.zone_hours < 0 { '-' } else { '+' };
        print!(rt; " {sign}{}h", d.zone_hours.unsigned_abs())?;
    }
    if 7 < n {
        print!(rt; "+{}m", d.zone_minutes)?;
    }
    Ok(())
}
