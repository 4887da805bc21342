//! The tokens that are still to be read.

ghost use Rattle.std.specs.Prelude.{◌≡◌, ◌<◌, ◌≤◌, ◌+◌, true, length, IfOk, if◌then◌else◌};
ghost use Rattle.enc_cursor.specs.Counts as counts;
ghost use Rattle.enc_cursor.specs.Place as place;
ghost use Rattle.enc_cursor.specs.Steps as steps;
ghost use Rattle.enc_cursor.specs.Counted as counted;
ghost use Rattle.enc_cursor.specs.Cursor.{Reads};
ghost use Rattle.enc_cursor.specs.Limits.{allowed};

use crate::error::ParseError;
use crate::limits::{
    MAX_GROUPS, MAX_NAMES, MAX_OPERATORS, MAX_TRAITS, MAX_VARIABLES, has_room, is_short, may_name,
};
use enc_ast::Span;
use enc_lex::{Kind, Token};
use std::marker::Model;

/// A place in a list of tokens, with what has been counted so far. Contracts see the spot where it stands.
#[derive(Drop)]
pub struct Cursor<'a> {
    ahead: &'a [Token],
    /// The span of the token before.
    last: Span,
    /// How many variables are visible.
    variables: usize,
    /// How many operators the whole expression has so far.
    operators: usize,
    /// How many names are declared.
    names: usize,
    /// How many groups the class has so far.
    groups: usize,
    /// How many traits the disjunction has so far.
    traits: usize,
}

impl<'a> Model for Cursor<'a> {
    ghost use Rattle.enc_cursor.specs.Place.{Spot};

    ghost Value = { Spot };

    ghost view = { λ t. record { last = t.last; ahead = t.ahead.now; counts = record { variables = t.variables; operators = t.operators; names = t.names; groups = t.groups; traits = t.traits } } };
}

impl<'a> Cursor<'a> {
    /// Stands before all of these tokens.
    pub fn new(tokens: &'a [Token]) -> Cursor<'a>
        ensures { result ≡ place.first_spot tokens.now }
    {
        Cursor {
            ahead: tokens,
            last: Span { start: 0, end: 0 },
            variables: 0,
            operators: 0,
            names: 0,
            groups: 0,
            traits: 0,
        }
    }

    /// The kind of the next token.
    pub fn peek(&self) -> Option<Kind>
        ensures { result ≡ place.peek self.now }
    {
        match self.ahead {
            [] => None,
            [token, ..] => Some(token.kind),
        }
    }

    /// Whether there is a next token.
    pub fn has_more(&self) -> bool
        ensures { result ≡ steps.some (place.peek self.now) }
    {
        match self.ahead {
            [] => false,
            [_, ..] => true,
        }
    }

    /// How many tokens are still to be read.
    pub fn left(&self) -> usize
        ensures { result ≡ length self.now.ahead }
    {
        self.ahead.len()
    }

    /// Whether the next token is of this kind.
    pub fn sees(&self, kind: Kind) -> bool
        ensures { result ≡ place.is kind (place.peek self.now) }
    {
        match self.ahead {
            [] => false,
            [token, ..] => token.kind == kind,
        }
    }

    /// Where the next token starts.
    pub fn start(&self) -> u32
        ensures { result ≡ place.start self.now }
    {
        match self.ahead {
            [] => 0,
            [token, ..] => token.span.start,
        }
    }

    /// The span of the last token that was read.
    pub fn last(&self) -> Span
        ensures { result ≡ self.now.last }
    {
        self.last
    }

    /// The span from there to the last token that was read.
    pub fn since(&self, start: u32) -> Span
        ensures { result ≡ record { start = start; end = self.now.last.end } }
    {
        Span {
            start,
            end: self.last.end,
        }
    }

    /// Goes past the next token, if there is one.
    #[tactic(auto, unfolding(crate::specs::Steps::next))]
    pub fn take(&mut self)
        ensures { self.new ≡ steps.next self.old }
    {
        if let [token, rest @ ..] = self.ahead {
            self.last = token.span;
            self.ahead = rest;
        }
    }

    /// Goes past the next token if it is of this kind, and says whether it is.
    pub fn accept(&mut self, kind: Kind) -> bool
        ensures seen { result ≡ place.is kind (place.peek self.old) }
        ensures moves { self.new ≡ (if result then steps.next self.old else self.old) }
    {
        if !self.sees(kind) {
            return false;
        }
        self.take();
        true
    }

    /// A token of this kind.
    #[tactic(auto, unfolding(crate::specs::Steps::token))]
    pub fn expect(&mut self, kind: Kind) -> Result<(), ParseError>
        ensures { Reads (steps.token kind self.old) result self.new }
    {
        if !self.accept(kind) {
            return Err(ParseError::Form);
        }
        Ok(())
    }

    /// A token of this kind, and its span.
    #[tactic(auto, unfolding(crate::specs::Counted::span_token, crate::specs::Counted::seen))]
    pub fn token(&mut self, kind: Kind) -> Result<Span, ParseError>
        ensures { Reads (counted.span_token kind self.old) result self.new }
    {
        if !self.accept(kind) {
            return Err(ParseError::Form);
        }
        Ok(self.last)
    }

    /// A name.
    #[tactic(auto, unfolding(crate::specs::Counted::name_by, crate::specs::Counted::seen, crate::specs::Limits::allowed))]
    pub fn name(&mut self) -> Result<Span, ParseError>
        ensures { Reads (counted.name_by allowed counts.word self.old) result self.new }
    {
        if !self.accept(Kind::Name) {
            return Err(ParseError::Form);
        }
        if !is_short(self.last) {
            return Err(ParseError::Over);
        }
        Ok(self.last)
    }

    /// The name of a variable, which is visible from there on.
    #[tactic(auto, unfolding(crate::specs::Counted::name_by, crate::specs::Counted::seen, crate::specs::Limits::allowed))]
    pub fn variable(&mut self) -> Result<Span, ParseError>
        ensures { Reads (counted.name_by allowed counts.variable self.old) result self.new }
    {
        if !self.accept(Kind::Name) {
            return Err(ParseError::Form);
        }
        if !may_name(self.last, self.variables, MAX_VARIABLES) {
            return Err(ParseError::Over);
        }
        self.variables += 1;
        Ok(self.last)
    }

    /// A name that is declared.
    #[tactic(auto, unfolding(crate::specs::Counted::name_by, crate::specs::Counted::seen, crate::specs::Limits::allowed))]
    pub fn declared(&mut self) -> Result<Span, ParseError>
        ensures { Reads (counted.name_by allowed counts.declared self.old) result self.new }
    {
        if !self.accept(Kind::Name) {
            return Err(ParseError::Form);
        }
        if !may_name(self.last, self.names, MAX_NAMES) {
            return Err(ParseError::Over);
        }
        self.names += 1;
        Ok(self.last)
    }

    /// A name that is a group of a class.
    #[tactic(auto, unfolding(crate::specs::Counted::name_by, crate::specs::Counted::seen, crate::specs::Limits::allowed))]
    pub fn group(&mut self) -> Result<Span, ParseError>
        ensures { Reads (counted.name_by allowed counts.group self.old) result self.new }
    {
        if !self.accept(Kind::Name) {
            return Err(ParseError::Form);
        }
        if !may_name(self.last, self.groups, MAX_GROUPS) {
            return Err(ParseError::Over);
        }
        self.groups += 1;
        Ok(self.last)
    }

    /// A name in a disjunction.
    #[tactic(auto, unfolding(crate::specs::Counted::name_by, crate::specs::Counted::seen, crate::specs::Limits::allowed))]
    pub fn trait_name(&mut self) -> Result<Span, ParseError>
        ensures { Reads (counted.name_by allowed counts.trait_ self.old) result self.new }
    {
        if !self.accept(Kind::Name) {
            return Err(ParseError::Form);
        }
        if !may_name(self.last, self.traits, MAX_TRAITS) {
            return Err(ParseError::Over);
        }
        self.traits += 1;
        Ok(self.last)
    }

    /// Goes past an operator that has been seen.
    #[tactic(auto, unfolding(crate::specs::Counted::counted_operator, crate::specs::Limits::allowed))]
    pub fn operator(&mut self) -> Result<(), ParseError>
        ensures { Reads (counted.counted_operator allowed self.old) result self.new }
    {
        self.take();
        if !has_room(self.operators, MAX_OPERATORS) {
            return Err(ParseError::Over);
        }
        self.operators += 1;
        Ok(())
    }

    /// An opening bracket, where so many may still be opened.
    #[tactic(auto, unfolding(crate::specs::Counted::opening))]
    pub fn open(&mut self, kind: Kind, depth: usize) -> Result<(), ParseError>
        ensures reads { Reads (counted.opening depth kind self.old) result self.new }
        ensures room { IfOk result (λ _. 0 < depth) }
    {
        if !self.accept(kind) {
            return Err(ParseError::Form);
        }
        if depth == 0 {
            return Err(ParseError::Over);
        }
        Ok(())
    }

    /// An opening bracket by which a group of a class begins, where so many brackets may still be opened.
    #[tactic(auto, unfolding(crate::specs::Counted::opening_group, crate::specs::Limits::allowed))]
    pub fn open_group(&mut self, kind: Kind, depth: usize) -> Result<(), ParseError>
        ensures reads { Reads (counted.opening_group allowed depth kind self.old) result self.new }
        ensures room { IfOk result (λ _. 0 < depth) }
    {
        if !self.accept(kind) {
            return Err(ParseError::Form);
        }
        if !has_room(self.groups, MAX_GROUPS) || depth == 0 {
            return Err(ParseError::Over);
        }
        self.groups += 1;
        Ok(())
    }

    /// A name by which a group begins, counted where it is one of a class.
    pub fn name_of_group(&mut self, is_of_class: bool) -> Result<Span, ParseError>
        ensures { Reads (counted.name_by allowed (counts.group_rules is_of_class).name self.old) result self.new }
    {
        if is_of_class {
            self.group()
        } else {
            self.name()
        }
    }

    /// An opening bracket by which a group begins, counted as a group where it is one of a class.
    #[tactic(auto, unfolding(crate::specs::Counted::group_opening))]
    pub fn open_of_group(
        &mut self,
        kind: Kind,
        depth: usize,
        is_of_class: bool,
    ) -> Result<(), ParseError>
        ensures reads { Reads (counted.group_opening allowed is_of_class depth kind self.old) result self.new }
        ensures room { IfOk result (λ _. 0 < depth) }
    {
        if is_of_class {
            self.open_group(kind, depth)
        } else {
            self.open(kind, depth)
        }
    }

    /// How many variables are visible.
    pub fn variables(&self) -> usize
        ensures { result ≡ self.now.counts.variables }
    {
        self.variables
    }

    /// Leaves a part of the text, before which so many variables were visible.
    pub fn leave(&mut self, variables: usize)
        ensures { self.new ≡ place.recounted (counts.with_variables variables self.old.counts) self.old }
    {
        self.variables = variables;
    }

    /// Ends a whole expression.
    pub fn finish(&mut self)
        ensures { self.new ≡ place.recounted (counts.finish self.old.counts self.old.counts) self.old }
    {
        self.operators = 0;
    }

    /// Ends the groups of a class.
    pub fn end_groups(&mut self)
        ensures { self.new ≡ place.recounted (counts.end_groups self.old.counts self.old.counts) self.old }
    {
        self.groups = 0;
    }

    /// Ends the traits of a disjunction.
    pub fn end_traits(&mut self)
        ensures { self.new ≡ place.recounted (counts.end_traits self.old.counts self.old.counts) self.old }
    {
        self.traits = 0;
    }
}
