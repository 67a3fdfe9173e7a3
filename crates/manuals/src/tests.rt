// What is said of faulty manuals, and a term one attribute longer.
use crate::manual::Manual;
use crate::place::Place;
use std::alloc::{AllocError, Global};
use std::process::Abort;
use std::test::Fail;

// What is said of a text.
fn said(heap: Global, text: &str) -> Result<String, AllocError> {
    match Manual::read(heap, text) {
        Ok(_) => String::from_str(heap, "read"),
        Err(fault) => format!(in heap; "{fault}"),
    }
}

// Is this said of the text?
fn says(rt: &impl Abort, heap: Global, text: &str, words: &str) -> Result<(), Fail> {
    let found = said(heap, text)?;
    assert_eq!(rt; found.as_str(), words);
    Ok(())
}

#[test]
fn faults_of_names(rt: HostRuntime) -> Result<(), Fail> {
    let heap = rt.alloc();
    says(
        &rt,
        heap,
        "attributes agr\n\n attributes num num # again\n",
        "Line 3: `num` is named twice.",
    )?;
    says(
        &rt,
        heap,
        "language L\nsentence s\nwords a\n\n\n\n\nx = a\n",
        "Line 8: `x` is none of the sentence's words.",
    )?;
    says(
        &rt,
        heap,
        "language L\nsentence s\nwords a\na x = a\n",
        "Line 4: `x` is no attribute.",
    )?;
    says(
        &rt,
        heap,
        "language L\nsentence s\nwords a\na is x\n",
        "Line 4: `x` is no value.",
    )
}

#[test]
fn faults_of_lines(rt: HostRuntime) -> Result<(), Fail> {
    let heap = rt.alloc();
    says(
        &rt,
        heap,
        "values sg\n\n\nsentence s\n",
        "Line 4: a sentence needs a line `language` above it.",
    )?;
    says(
        &rt,
        heap,
        "language L\nwords a\n",
        "Line 2: words and equations need a line `sentence` above them.",
    )?;
    says(
        &rt,
        heap,
        "language L\nsentence s\nhello\n",
        "Line 3: an equation has `=` between two terms, or `is` between a term and a value.",
    )?;
    says(
        &rt,
        heap,
        "language L\nsentence s\nwords a\na =\n",
        "Line 4: a term is missing.",
    )
}

#[test]
fn limits(rt: HostRuntime) -> Result<(), Fail> {
    let heap = rt.alloc();
    says(
        &rt,
        heap,
        "attributes a b c d e f g h i j k l m n o p q r s t u v w x y z A B C D E F\nattributes G\n",
        "Line 2: `G` is one name too many. There can be 32.",
    )?;
    says(
        &rt,
        heap,
        "attributes a\nvalues v\nlanguage L\nsentence s\nwords w\nw a a a a a a a is v\n",
        "read",
    )?;
    says(
        &rt,
        heap,
        "attributes a\nvalues v\nlanguage L\nsentence s\nwords w\nw a a a a a a a a is v\n",
        "Line 6: a term has at most 7 attributes.",
    )
}

#[test]
fn a_longer_term(rt: HostRuntime) -> Result<(), Fail> {
    let place = Place::of(rt.alloc(), 3).extended(5)?.extended(7)?;
    assert_eq!(rt; place.word, 3);
    assert_eq!(rt; place.path.as_slice(), [5, 7].as_slice());
    Ok(())
}
