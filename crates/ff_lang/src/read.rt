//! The reader of a whole string as a filtergraph.
ghost use Rattle.std.specs.Prelude.{◌≡◌, ◌⊎◌, ℕ, IfOk, IsErrOf};
ghost use Rattle.ff_lang.specs.Grammar.{IsGraph, IsBadAt};
ghost use Rattle.ff_lang.specs.laws.Printing.{IsSound};
ghost use Rattle.ff_lang.specs.laws.Reading.{start};
ghost use Rattle.ff_lang.specs.declared.graph.Graph.{Graph};

use crate::error::LangError;
use crate::graph::Graph;
use crate::parser::Parser;
use std::alloc::Global;

/// The graph that a string stands for. `Bad` where it is none, with the first byte after which no filtergraph goes
/// on. Where the string ends too early, that is its length (ffmpeg-filters, "Filtergraph syntax").
pub fn read_graph(alloc: Global, text: &str) -> Result<Graph, LangError>
    ensures ok { (graph : Graph) → result ≡ Ok graph → IsGraph text.now graph }
    ensures read { (graph : Graph) → IsGraph text.now graph
        → (result ≡ Ok graph) ⊎ IsErrOf result LangError.NoMemory }
    ensures bad { (at : ℕ) → IsErrOf result (LangError.Bad at) → IsBadAt text.now at }
    ensures refused { (at : ℕ) → IsBadAt text.now at
        → IsErrOf result (LangError.Bad at) ⊎ IsErrOf result LangError.NoMemory }
    ensures sound { IfOk result (λ graph. IsSound graph) }
{
    let mut parser = Parser::new(alloc);
    parsed(&mut parser, alloc, text)
}

// The graph of a whole string, by a parser that has read nothing.
fn parsed(parser: &mut Parser, alloc: Global, text: &str) -> Result<Graph, LangError>
    requires { parser.old ≡ start }
    ensures ok { (graph : Graph) → result ≡ Ok graph → IsGraph text.now graph }
    ensures read { (graph : Graph) → IsGraph text.now graph
        → (result ≡ Ok graph) ⊎ IsErrOf result LangError.NoMemory }
    ensures bad { (at : ℕ) → IsErrOf result (LangError.Bad at) → IsBadAt text.now at }
    ensures refused { (at : ℕ) → IsBadAt text.now at
        → IsErrOf result (LangError.Bad at) ⊎ IsErrOf result LangError.NoMemory }
    ensures sound { IfOk result (λ graph. IsSound graph) }
{
    let mut at = 0;
    for c in text.chars() {
        if !parser.next(alloc, c)? {
            return Err(LangError::Bad { at });
        }
        at += c.len_utf8();
    }
    match parser.end(alloc)? {
        Some(graph) => Ok(graph),
        None => Err(LangError::Bad { at: text.len() }),
    }
}
