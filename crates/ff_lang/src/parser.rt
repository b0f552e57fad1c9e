//! The parser of filtergraphs, one character at a time.
ghost use Rattle.std.specs.Prelude.{◌≡◌, IfOk, OnOk, encode_utf8};
ghost use Rattle.ff_lang.specs.laws.Reading.{Goes, start, ended, bracket, next_filter, next_chain, tail_next, front_next, in_label_next, name_next, named_next, special_next, value_next, key_next, quoted_next, out_label_next, back_next, char_next, end_of, pushed};

use crate::graph::{Arg, Chain, Filter, Graph};
use crate::letters::{LONGEST, is_blank, is_label, is_special, is_word};
use crate::lists::{Sequence, Text};
use std::alloc::{AllocError, Global};
use std::mem;

/// Where in a filter the next character stands.
#[derive(Clone, Copy)]
pub(super) enum Place {
    /// Before the name.
    Front,
    /// In a label before the name.
    InLabel,
    /// In the name.
    Name,
    /// After blanks that follow the name.
    Named,
    /// In what may be a key.
    Key,
    /// In a value.
    Value,
    /// In quotes in a value.
    Quoted,
    /// After `\` in a value.
    Escaped,
    /// In a label after the name.
    OutLabel,
    /// After such a label.
    Back,
}

/// A reader of a filtergraph: what it has read, and what it is in.
#[derive(Drop)]
pub(super) struct Parser {
    place: Place,
    graph: Graph,
    chain: Chain,
    filter: Filter,
    arg: Arg,
    label: Text,
}

impl Parser {
    /// A parser that has read nothing.
    pub(super) fn new(alloc: Global) -> Parser
        ensures { result ≡ start }
    {
        Parser {
            place: Place::Front,
            graph: Graph {
                chains: Sequence::new(alloc),
            },
            chain: Chain::new(alloc),
            filter: Filter::new(alloc),
            arg: Arg::new(alloc),
            label: Text::new(alloc),
        }
    }

    fn end_arg(&mut self, alloc: Global) -> Result<(), AllocError>
        ensures { OnOk result (self.new ≡ ended self.old) }
    {
        let arg = mem::replace(&mut self.arg, Arg::new(alloc));
        self.filter.args.push(arg)
    }

    fn bracket(&mut self, alloc: Global, place: Place)
        ensures { self.new ≡ bracket place self.old }
    {
        self.place = place;
        self.label = Text::new(alloc);
    }

    fn end_filter(&mut self, alloc: Global) -> Result<(), AllocError>
        ensures { OnOk result (self.new ≡ next_filter self.old) }
    {
        self.place = Place::Front;
        let filter = mem::replace(&mut self.filter, Filter::new(alloc));
        self.chain.filters.push(filter)
    }

    fn end_chain(&mut self, alloc: Global) -> Result<(), AllocError>
        ensures { OnOk result (self.new ≡ next_chain self.old) }
    {
        self.end_filter(alloc)?;
        let chain = mem::replace(&mut self.chain, Chain::new(alloc));
        self.graph.chains.push(chain)
    }

    fn push(&mut self, place: Place, c: char) -> Result<(), AllocError>
        ensures { OnOk result (self.new ≡ pushed place (encode_utf8 c) self.old) }
    {
        self.place = place;
        self.arg.value.push(c)
    }

    // A label after the filter, or its end.
    fn tail(&mut self, alloc: Global, c: char) -> Result<bool, AllocError>
        ensures { IfOk result (λ on. Goes (tail_next self.old c) on self.new) }
    {
        if c == '[' {
            self.bracket(alloc, Place::OutLabel);
            Ok(true)
        } else if c == ',' {
            self.end_filter(alloc)?;
            Ok(true)
        } else if c == ';' {
            self.end_chain(alloc)?;
            Ok(true)
        } else {
            Ok(false)
        }
    }

    fn front(&mut self, alloc: Global, c: char) -> Result<bool, AllocError>
        ensures { IfOk result (λ on. Goes (front_next self.old c (encode_utf8 c)) on self.new) }
    {
        if is_word(c) {
            self.place = Place::Name;
            self.filter.name = Text::new(alloc);
            self.filter.name.push(c)?;
            Ok(true)
        } else if is_blank(c) {
            Ok(true)
        } else if c == '[' {
            self.bracket(alloc, Place::InLabel);
            Ok(true)
        } else {
            Ok(false)
        }
    }

    fn in_label(&mut self, alloc: Global, c: char) -> Result<bool, AllocError>
        ensures { IfOk result (λ on. Goes (in_label_next self.old c (encode_utf8 c)) on self.new) }
    {
        if is_label(c) && self.label.len() < LONGEST {
            self.label.push(c)?;
            Ok(true)
        } else if c == ']' && 0 < self.label.len() {
            self.place = Place::Front;
            let label = mem::replace(&mut self.label, Text::new(alloc));
            self.filter.ins.push(label)?;
            Ok(true)
        } else {
            Ok(false)
        }
    }

    fn named(&mut self, alloc: Global, c: char) -> Result<bool, AllocError>
        ensures { IfOk result (λ on. Goes (named_next self.old c) on self.new) }
    {
        if is_blank(c) {
            self.place = Place::Named;
            Ok(true)
        } else if c == '=' {
            self.place = Place::Key;
            self.arg = Arg::new(alloc);
            Ok(true)
        } else {
            self.tail(alloc, c)
        }
    }

    fn name(&mut self, alloc: Global, c: char) -> Result<bool, AllocError>
        ensures { IfOk result (λ on. Goes (name_next self.old c (encode_utf8 c)) on self.new) }
    {
        if is_word(c) && self.filter.name.len() < LONGEST {
            self.filter.name.push(c)?;
            Ok(true)
        } else {
            self.named(alloc, c)
        }
    }

    fn special(&mut self, alloc: Global, c: char) -> Result<bool, AllocError>
        ensures { IfOk result (λ on. Goes (special_next self.old c) on self.new) }
    {
        if c == '\'' {
            self.place = Place::Quoted;
            Ok(true)
        } else if c == '\\' {
            self.place = Place::Escaped;
            Ok(true)
        } else if c == ':' {
            self.end_arg(alloc)?;
            self.place = Place::Key;
            Ok(true)
        } else if c == ']' {
            Ok(false)
        } else {
            self.end_arg(alloc)?;
            self.tail(alloc, c)
        }
    }

    fn value(&mut self, alloc: Global, c: char) -> Result<bool, AllocError>
        ensures { IfOk result (λ on. Goes (value_next self.old c (encode_utf8 c)) on self.new) }
    {
        if is_special(c) {
            self.special(alloc, c)
        } else {
            self.push(Place::Value, c)?;
            Ok(true)
        }
    }

    fn key(&mut self, alloc: Global, c: char) -> Result<bool, AllocError>
        ensures { IfOk result (λ on. Goes (key_next self.old c (encode_utf8 c)) on self.new) }
    {
        if is_word(c) && self.arg.value.len() < LONGEST {
            self.push(Place::Key, c)?;
            Ok(true)
        } else if c == '=' && 0 < self.arg.value.len() {
            self.place = Place::Value;
            let key = mem::replace(&mut self.arg.value, Text::new(alloc));
            self.arg.key = Some(key);
            Ok(true)
        } else {
            self.value(alloc, c)
        }
    }

    fn quoted(&mut self, c: char) -> Result<bool, AllocError>
        ensures { IfOk result (λ on. Goes (quoted_next self.old c (encode_utf8 c)) on self.new) }
    {
        if c == '\'' {
            self.place = Place::Value;
        } else {
            self.push(Place::Quoted, c)?;
        }
        Ok(true)
    }

    fn out_label(&mut self, alloc: Global, c: char) -> Result<bool, AllocError>
        ensures { IfOk result (λ on. Goes (out_label_next self.old c (encode_utf8 c)) on self.new) }
    {
        if is_label(c) && self.label.len() < LONGEST {
            self.label.push(c)?;
            Ok(true)
        } else if c == ']' && 0 < self.label.len() {
            self.place = Place::Back;
            let label = mem::replace(&mut self.label, Text::new(alloc));
            self.filter.outs.push(label)?;
            Ok(true)
        } else {
            Ok(false)
        }
    }

    fn back(&mut self, alloc: Global, c: char) -> Result<bool, AllocError>
        ensures { IfOk result (λ on. Goes (back_next self.old c) on self.new) }
    {
        if is_blank(c) {
            Ok(true)
        } else {
            self.tail(alloc, c)
        }
    }

    /// Goes on by a character, unless no graph does.
    pub(super) fn next(&mut self, alloc: Global, c: char) -> Result<bool, AllocError>
        ensures { IfOk result (λ on. Goes (char_next self.old c (encode_utf8 c)) on self.new) }
    {
        match self.place {
            Place::Front => self.front(alloc, c),
            Place::InLabel => self.in_label(alloc, c),
            Place::Name => self.name(alloc, c),
            Place::Named => self.named(alloc, c),
            Place::Key => self.key(alloc, c),
            Place::Value => self.value(alloc, c),
            Place::Quoted => self.quoted(c),
            Place::Escaped => {
                self.push(Place::Value, c)?;
                Ok(true)
            }
            Place::OutLabel => self.out_label(alloc, c),
            Place::Back => self.back(alloc, c),
        }
    }

    /// The graph, where the string may end here.
    pub(super) fn end(&mut self, alloc: Global) -> Result<Option<Graph>, AllocError>
        ensures { IfOk result (λ graph. graph ≡ end_of self.old) }
    {
        match self.place {
            Place::Name | Place::Named | Place::Back => {}
            Place::Key | Place::Value => self.end_arg(alloc)?,
            _ => return Ok(None),
        }
        self.end_chain(alloc)?;
        let chains = mem::replace(&mut self.graph.chains, Sequence::new(alloc));
        Ok(Some(Graph { chains }))
    }
}
