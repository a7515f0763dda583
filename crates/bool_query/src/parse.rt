ghost use Rattle.std.specs.Prelude.{◌≡◌, ◌+◌, ◌<◌, ◌≤◌, drop, length, IfOk};
ghost use Rattle.funnel_model.specs.Expressions.{tree_of};
ghost use Rattle.funnel_model.specs.Queries as queries;
ghost use Rattle.funnel_model.specs.Queries.{IsMalformed, IsQuery, IsTooDeep, atom_bytes};
ghost use Rattle.bool_query.specs.Faults.{IfDeep, IfSyntax};
ghost use Rattle.bool_query.specs.Progress.{HasRead};

use crate::fault::QueryFault;
use crate::parser::Parser;
use funnel_model::Expr;
use std::alloc::Global;

/// Reads a text as a query. An expression is one or more terms parted by `|`, a term one or more factors, and a factor
/// an atom, `-` and a factor, or an expression in parentheses. An atom begins with another byte than a space and these
/// signs, and ends before a space, `|`, `(`, `)` or the end; spaces may stand between tokens.
///
/// It goes over the text once, and copies nothing but the texts of the atoms.
pub fn parse_query(alloc: Global, text: &str) -> Result<Expr, QueryFault>
    ensures query { IfOk result (λ expr. IsQuery text.now (tree_of expr)) }
    ensures syntax { IfSyntax result (λ at. IsMalformed text.now at) }
    ensures deep { IfDeep result (λ at. IsTooDeep text.now at) }
{
    let mut parser = Parser::new(alloc);
    let mut at = 0;
    while at < text.len() {
        at = take_next(&mut parser, alloc, text, at)?;
    }
    parser.finish(text.len() as u64)
}

/// Takes the token at this byte, or goes past a space there, and gives the next byte to look at.
fn take_next(parser: &mut Parser, alloc: Global, text: &str, at: usize) -> Result<usize, QueryFault>
    requires inside { at < length text.now }
    requires read { HasRead text.now at parser.old }
    ensures next { IfOk result (λ next. (at < next) × (next ≤ length text.now) × HasRead text.now next parser.new) }
    ensures syntax { IfSyntax result (λ place. IsMalformed text.now place) }
    ensures deep { IfDeep result (λ place. IsTooDeep text.now place) }
{
    let place = at as u64;
    match text.as_bytes()[at] {
        b' ' => Ok(at + 1),
        b'|' => {
            parser.take_bar(alloc, place)?;
            Ok(at + 1)
        }
        b'(' => {
            parser.take_left(alloc, place)?;
            Ok(at + 1)
        }
        b')' => {
            parser.take_right(alloc, place)?;
            Ok(at + 1)
        }
        b'-' => {
            parser.take_minus(place)?;
            Ok(at + 1)
        }
        _ => {
            let end = atom_end(text.as_bytes(), at + 1);
            parser.take_atom(alloc, &text[at..end])?;
            Ok(end)
        }
    }
}

/// Where the atom ends to which the bytes from here on belong.
fn atom_end(bytes: &[u8], from: usize) -> usize
    requires inside { from ≤ length bytes.now }
    ensures { result ≡ from + length (atom_bytes (drop from bytes.now)) }
{
    let mut end = from;
    while end < bytes.len() && !ends_atom(bytes[end]) {
        end += 1;
    }
    end
}

/// Whether an atom ends before this byte.
fn ends_atom(byte: u8) -> bool
    ensures { result ≡ queries.ends_atom byte }
{
    matches!(byte, b' ' | b'|' | b'(' | b')')
}
