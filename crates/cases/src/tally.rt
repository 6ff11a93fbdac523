// How many cases there were, how many differ, and the first that does.
use std::io;
use std::num::wrapping_add_u64;

#[derive(Clone, Copy)]
pub struct Tally {
    pub cases: u64,
    pub differ: u64,
    pub first: u64,
}

pub fn nothing() -> Tally {
    Tally {
        cases: 0,
        differ: 0,
        first: 0,
    }
}

// The tally with one case more.
pub fn counted(t: Tally, agrees: bool) -> Tally {
    let cases = wrapping_add_u64(t.cases, 1);
    if agrees {
        return Tally {
            cases,
            differ: t.differ,
            first: t.first,
        };
    }
    Tally {
        cases,
        differ: wrapping_add_u64(t.differ, 1),
        first: if t.differ == 0 { t.cases } else { t.first },
    }
}

// Two tallies as one; the first case that differs is told family by family.
pub fn both_of(a: Tally, b: Tally) -> Tally {
    Tally {
        cases: wrapping_add_u64(a.cases, b.cases),
        differ: wrapping_add_u64(a.differ, b.differ),
        first: a.first,
    }
}

// How many tallies had a case, with one tally more.
pub fn with_cases(had: u64, t: Tally) -> u64 {
    if t.cases == 0 {
        return had;
    }
    wrapping_add_u64(had, 1)
}

fn write_not_run(rt: &HostRuntime, name: &[u8]) -> io::Result<()> {
    rt.write_all(name)?;
    println!(rt; ": not run")
}

fn write_all_cases(rt: &HostRuntime, t: Tally, had: u64, files: u64) -> io::Result<()> {
    let Tally { cases, differ, .. } = t;
    print!(rt; "all: {cases} cases, {differ} differ, {had} of {files} files run")?;
    if had != files {
        print!(rt; "; a file is missing, cannot be read or is empty")?;
    }
    println!(rt)
}

fn write_family(rt: &HostRuntime, name: &[u8], t: Tally) -> io::Result<()> {
    let Tally {
        cases,
        differ,
        first,
    } = t;
    rt.write_all(name)?;
    println!(rt; ": {cases} cases, {differ} differ")?;
    if differ != 0 {
        print!(rt; "first: ")?;
        rt.write_all(name)?;
        println!(rt; " {first}")?;
    }
    Ok(())
}

// The line of a family that was not run. Where a line cannot be written, nobody is left to be told.
pub fn not_run(rt: &HostRuntime, name: &[u8]) {
    let _ = write_not_run(rt, name);
}

// The last line.
pub fn report_all(rt: &HostRuntime, t: Tally, had: u64, files: u64) {
    let _ = write_all_cases(rt, t, had, files);
}

// The line of a family; another names the first case that differs.
pub fn report(rt: &HostRuntime, name: &[u8], t: Tally) {
    let _ = write_family(rt, name, t);
}
