// Checks the agreement of the sentences of a manual, which it reads from the file `sentences.txt`. docs/agreement.md has the notation.
#![tactic(auto)]

use anyhow::anyhow;
use manuals::manual::Manual;
use sentences::findings::Findings;
use sentences::report::Report;
use std::fmt::Display;
use std::fs;
use std::io::Print;

const FILE: &str = "sentences.txt";

fn main(rt: HostRuntime) -> anyhow::Result<()> {
    let heap = rt.alloc();
    let text = fs::read_to_string(&rt, FILE).or_else(|error| refuse(
        &rt,
        format_args!("{FILE} cannot be read: {error}."),
        "no manual",
    ))?;
    let manual = Manual::read(heap, text.as_str()).or_else(|fault| refuse(
        &rt,
        format_args!("{FILE}: {fault}"),
        "no manual",
    ))?;
    for sentence in manual.sentences.iter() {
        let context = manual.context(sentence);
        let findings = Findings::of(heap, context).or_else(|failure| refuse(
            &rt,
            failure,
            "not judged",
        ))?;
        rt.println(Report {
            context,
            findings: &findings,
        })?;
    }
    Ok(())
}

// Says in full why the judging ends here. The error says it in short.
fn refuse<T>(rt: &impl Print, why: impl Display + Drop, short: &str) -> anyhow::Result<T> {
    rt.println(why)?;
    Err(anyhow!("{short}"))
}
