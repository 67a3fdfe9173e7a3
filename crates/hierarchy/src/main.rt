// Reads a type hierarchy written in names, and says what comes of it. The status is 0 where it is accepted.
#![tactic(auto)]

use anyhow::anyhow;
use hierarchy_text::{Refusal, Report, Sheet};
use std::fmt::Display;
use std::io::{self, Print};

fn main(rt: HostRuntime) -> anyhow::Result<()> {
    let heap = rt.alloc();
    let text = io::read_to_string(heap, rt.stdin()).or_else(|error| refuse(
        &rt,
        format_args!("The input cannot be read: {error}."),
    ))?;
    let sheet = Sheet::read(heap, text.as_str()).or_else(|fault| refuse(&rt, fault))?;
    let types = sheet.hierarchy().or_else(|objection| {
        refuse(
            &rt,
            Refusal {
                sheet: &sheet,
                objection,
            },
        )
    })?;
    rt.print(Report {
        sheet: &sheet,
        types: &types,
    })?;
    Ok(())
}

// Says why the input is not accepted.
fn refuse<T>(rt: &impl Print, why: impl Display + Drop) -> anyhow::Result<T> {
    rt.println(why)?;
    Err(anyhow!("not accepted"))
}
