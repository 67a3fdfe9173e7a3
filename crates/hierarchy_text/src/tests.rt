// Examples of hierarchies, and of what is said of them.
use crate::*;
use std::alloc::{AllocError, Global};
use std::process::Abort;
use std::test::Fail;

// What is said of the hierarchy of a text.
fn said(heap: Global, text: &str) -> Result<String, AllocError> {
    let sheet = match Sheet::read(heap, text) {
        Ok(sheet) => sheet,
        Err(fault) => return format!(in heap; "{fault}"),
    };
    match sheet.hierarchy() {
        Ok(types) => {
            let report = Report {
                sheet: &sheet,
                types: &types,
            };
            format!(in heap; "{report}")
        }
        Err(objection) => {
            let refusal = Refusal {
                sheet: &sheet,
                objection,
            };
            format!(in heap; "{refusal}")
        }
    }
}

// Is this said of the hierarchy?
fn says(rt: &impl Abort, heap: Global, text: &str, words: &str) -> Result<(), Fail> {
    let found = said(heap, text)?;
    assert_eq!(rt; found.as_str(), words);
    Ok(())
}

#[test]
fn a_small_table(rt: HostRuntime) -> Result<(), Fail> {
    says(
        &rt,
        rt.alloc(),
        "agr # top\n\nsg:agr\r\n pl : agr\nthird : agr\nsg3 : sg third !\n",
        "Accepted. Types: 5.\n\n  agr\n  sg    : agr\n  pl    : agr\n  third : agr\n  sg3   : sg third !\n\nMeets (`-`: none):\n\n           agr     sg     pl  third    sg3\n    agr    agr     sg     pl  third    sg3\n     sg     sg     sg      -    sg3    sg3\n     pl     pl      -     pl      -      -\n  third  third    sg3      -  third    sg3\n    sg3    sg3    sg3      -    sg3    sg3\n",
    )
}

#[test]
fn names_are_single_words(rt: HostRuntime) -> Result<(), Fail> {
    let heap = rt.alloc();
    says(
        &rt,
        heap,
        " # nothing\n\n",
        "No line names a type. The first type is the top.",
    )?;
    says(
        &rt,
        heap,
        "a\n: a",
        "Line 2: there is no name at the start of the line.",
    )?;
    says(
        &rt,
        heap,
        "a\nb c : a",
        "Line 2: `b c` is no name. A name is one word of visible ASCII characters other than `:`, `!` and `#`.",
    )?;
    says(
        &rt,
        heap,
        "a\nb : a ! a",
        "Line 2: `!` is no name. A name is one word of visible ASCII characters other than `:`, `!` and `#`.",
    )?;
    says(
        &rt,
        heap,
        "a\nb : a\n\nb : a",
        "Line 4: the type `b` stands on line 2 already.",
    )
}

#[test]
fn supertypes_stand_above(rt: HostRuntime) -> Result<(), Fail> {
    let heap = rt.alloc();
    says(
        &rt,
        heap,
        "a : b\nb",
        "Line 1: `a` is the first type, which is the top, and so has no supertype.",
    )?;
    says(
        &rt,
        heap,
        "a\nb",
        "Line 2: `b` has no supertype. Every type but the first has at least one.",
    )?;
    says(
        &rt,
        heap,
        "a\nb : a x",
        "Line 2: no line has the supertype `x`.",
    )?;
    says(
        &rt,
        heap,
        "a\nb : c\n\nc : a",
        "Line 2: the supertype `c` stands on line 4. A supertype stands above its subtypes.",
    )?;
    says(
        &rt,
        heap,
        "a\nb : b",
        "Line 2: the supertype `b` stands on line 2. A supertype stands above its subtypes.",
    )
}

#[test]
fn refusals_name_the_types(rt: HostRuntime) -> Result<(), Fail> {
    let heap = rt.alloc();
    says(
        &rt,
        heap,
        "top\na : top\nb : top\nc : a b\nd : a b\ne : c",
        "Refused: `a` and `b` have common subtypes and no greatest of them: `c` `d` `e`.",
    )?;
    says(
        &rt,
        heap,
        "top !",
        "Refused: `top` is the top, which cannot be a leaf.",
    )?;
    says(
        &rt,
        heap,
        "top\na : top !\nb : a !\nc : b",
        "Refused: `c` is below the leaf `a`, and has no mark of its own.",
    )
}

#[test]
fn a_line_by_itself(rt: HostRuntime) -> Result<(), Fail> {
    let heap = rt.alloc();
    assert!(&rt; Entry::read(heap, 1, "  # a : b")?.is_none());
    let Some(entry) = Entry::read(heap, 3, " a : b c ! # d")? else {
        return Err(Fail::new("nothing is read"));
    };
    assert_eq!(&rt; entry.line, 3);
    assert_eq!(&rt; entry.name.as_str(), "a");
    assert_eq!(&rt; entry.supertypes.len(), 2);
    assert!(&rt; entry.leaf);
    Ok(())
}

#[test]
fn there_are_at_most_64_types(rt: HostRuntime) -> Result<(), Fail> {
    let heap = rt.alloc();
    let mut text = String::from_str(heap, "t\n")?;
    for i in 0..63u8 {
        text.push_str(format!(in heap; "t{i} : t\n")?.as_str())?;
    }
    assert!(rt; Sheet::read(heap, text.as_str()).is_ok());
    text.push_str("more : t\n")?;
    says(
        &rt,
        heap,
        text.as_str(),
        "Line 65: this is one type too many. There can be 64.",
    )
}
