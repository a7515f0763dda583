//! Queries as they are read.
use bool_query::{QueryFault, parse_query};
use funnel_model::{Expr, Text};
use std::alloc::Global;
use std::test::Fail;

/// Whether the expression is one term, of the atom `cat` and of a minus sign before the atom `dog`.
fn is_cat_without_dog(expr: &Expr) -> bool {
    let Expr::Or(terms) = expr else {
        return false;
    };
    let [Expr::And(factors)] = terms.as_slice() else {
        return false;
    };
    let [Expr::Atom(first), Expr::Not(second)] = factors.as_slice() else {
        return false;
    };
    first.as_str() == "cat" && is_dog(second)
}

fn is_dog(expr: &Expr) -> bool {
    let Expr::Atom(text) = expr else {
        return false;
    };
    text.as_str() == "dog"
}

fn reads_query(alloc: Global) -> Result<bool, Fail> {
    let expr = parse_query(alloc, "cat -dog")?;
    Ok(is_cat_without_dog(&expr))
}

#[test]
fn a_query_is_read(rt: HostRuntime) -> Result<(), Fail> {
    assert!(rt; reads_query(rt.alloc())?);
    Ok(())
}

/// Texts that are no queries, and where they are refused.
static REFUSED: [(&str, QueryFault); 4] = [
    ("(cat", QueryFault::Syntax(4)),
    ("cat | | dog", QueryFault::Syntax(6)),
    ("", QueryFault::Syntax(0)),
    (
        "(((((((((((((((((((((((((((((((((((((((((((((((((((((((((((((((((a",
        QueryFault::Deep(64),
    ),
];

fn fault_of(alloc: Global, text: &str) -> Option<QueryFault> {
    match parse_query(alloc, text) {
        Ok(_) => None,
        Err(fault) => Some(fault),
    }
}

/// How many of these texts are refused so.
fn right_faults(alloc: Global) -> usize {
    let mut right: usize = 0;
    for (text, fault) in &REFUSED {
        if fault_of(alloc, text) == Some(*fault) {
            right = right.saturating_add(1);
        }
    }
    right
}

#[test]
fn a_text_is_refused_at_its_first_wrong_token(rt: HostRuntime) {
    assert_eq!(rt; right_faults(rt.alloc()), REFUSED.len());
}
