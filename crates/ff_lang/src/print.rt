//! The printer of filtergraphs.
ghost use Rattle.std.specs.Prelude.{◌≡◌, ◌++◌, ◌<◌, ℕ, List, OnOk, IfOk, string_bytes, encode_utf8};
ghost use Rattle.ff_lang.specs.Grammar.{IsGraph};
ghost use Rattle.ff_lang.specs.laws.Printing.{escaped_value, printed_arg, series, printed_args, printed_labels, printed_filter, printed_chain, printed, IsSound};

use crate::graph::{Arg, Chain, Filter, Graph};
use crate::letters::is_escaped;
use crate::lists::Text;
use std::alloc::{AllocError, Global};

// A part of a graph that is written in a row, with a separator between two of them.
trait Print {
    ghost text_of: { Self → List ℕ };

    /// Adds the part at the end of a string.
    fn print(&self, out: &mut String) -> Result<(), AllocError>
        ensures { OnOk result (string_bytes out.new ≡ string_bytes out.old ++ text_of self.now) };
}

fn push_series<T: Print>(out: &mut String, items: &[T], separator: char) -> Result<(), AllocError>
    requires { separator < 128 }
    ensures { OnOk result (string_bytes out.new ≡ string_bytes out.old ++ series T.text_of separator items.now) }
{
    let Some((first, rest)) = items.split_first() else {
        return Ok(());
    };
    first.print(out)?;
    for item in rest {
        out.push(separator)?;
        item.print(out)?;
    }
    Ok(())
}

// A character of a value, after `\` where it would mean something else.
fn push_char(out: &mut String, c: char) -> Result<(), AllocError>
    ensures { OnOk result (string_bytes out.new ≡ string_bytes out.old ++ escaped_value (encode_utf8 c)) }
{
    if is_escaped(c) {
        out.push('\\')?;
    }
    out.push(c)
}

#[tactic(auto, using(crate::proofs::Prints::value_step))]
fn push_value(out: &mut String, value: &str) -> Result<(), AllocError>
    ensures { OnOk result (string_bytes out.new ≡ string_bytes out.old ++ escaped_value value.now) }
{
    for c in value.chars() {
        push_char(out, c)?;
    }
    Ok(())
}

fn push_labels(out: &mut String, labels: &[Text]) -> Result<(), AllocError>
    ensures { OnOk result (string_bytes out.new ≡ string_bytes out.old ++ printed_labels labels.now) }
{
    for label in labels {
        out.push('[')?;
        out.push_str(label.as_str())?;
        out.push(']')?;
    }
    Ok(())
}

impl Print for Arg {
    ghost text_of = { printed_arg };

    fn print(&self, out: &mut String) -> Result<(), AllocError> {
        if let Some(key) = &self.key {
            out.push_str(key.as_str())?;
            out.push('=')?;
        }
        push_value(out, self.value.as_str())
    }
}

fn push_args(out: &mut String, args: &[Arg]) -> Result<(), AllocError>
    ensures { OnOk result (string_bytes out.new ≡ string_bytes out.old ++ printed_args args.now) }
{
    if args.is_empty() {
        return Ok(());
    }
    out.push('=')?;
    push_series(out, args, ':')
}

impl Print for Filter {
    ghost text_of = { printed_filter };

    fn print(&self, out: &mut String) -> Result<(), AllocError> {
        push_labels(out, self.ins.as_slice())?;
        out.push_str(self.name.as_str())?;
        push_args(out, self.args.as_slice())?;
        push_labels(out, self.outs.as_slice())
    }
}

impl Print for Chain {
    ghost text_of = { printed_chain };

    fn print(&self, out: &mut String) -> Result<(), AllocError> {
        push_series(out, self.filters.as_slice(), ',')
    }
}

/// A graph as a string: no blanks, and in values `\` before each character that would mean something else. Where
/// `graph_ok` holds, it stands for the graph (ffmpeg-filters, "Filtergraph syntax").
pub fn print_graph(alloc: Global, graph: &Graph) -> Result<String, AllocError>
    ensures spelled { IfOk result (λ text. string_bytes text ≡ printed graph.now) }
    ensures stands { IsSound graph.now → IfOk result (λ text. IsGraph (string_bytes text) graph.now) }
{
    let mut out = String::new(alloc);
    push_series(&mut out, graph.chains.as_slice(), ';')?;
    Ok(out)
}
