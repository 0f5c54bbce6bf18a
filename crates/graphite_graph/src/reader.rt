//! The reading of a text, one line after the other.
ghost use Rattle.std.specs.Prelude.{◌≡◌, ◌==◌, ◌&&◌, ◌≤◌, ◌<◌, ℕ, List, length, true, [], None, Some, Ok, is_some, nat_lt, nat_le, unwrap_or, if◌then◌else◌, IfSome, IfErr, OnOk, IfOk, IfNone};
ghost use Rattle.graphite_time.specs.declared.TheConstants.{LAST};
ghost use Rattle.graphite_time.specs.Interval.{end_of};
ghost use Rattle.graphite_text.specs.declared.limits.TheConstants.{EDGE_LIMIT};
ghost use Rattle.graphite_text.specs.declared.rules.TheConstants.{LINE_RULE, NEW_NAME_RULE, OVERLAP_RULE};
ghost use Rattle.graphite_text.specs.Forms.{Vertex, Edge, VertexProperty, EdgeProperty, line_form};
ghost use Rattle.graphite_text.specs.Graph.{vertex_number, edge_number};
ghost use Rattle.graphite_text.specs.Line.{text_line};
ghost use Rattle.graphite_text.specs.Reading.{nothing_known, after_line};
ghost use Rattle.graphite_text.specs.Record.{form_of_record};
ghost use Rattle.graphite_text.specs.Spans.{as_span};
ghost use Rattle.graphite_props.specs.Properties.{property};
ghost use Rattle.graphite_graph.specs.Ends.{with_vertex_property, with_edge_property};
ghost use Rattle.graphite_graph.specs.Store.{AreAmong};
ghost use Rattle.graphite_graph.specs.Step.{after_form, place_broken, owner_broken, vertex_property_broken, edge_property_broken, late_broken, is_full, is_stopped, misplaced, IsOpen, IsPlaced, ExplainsRecord, ExplainsRule, ExplainsLine};

use crate::ends::Ends;
use crate::fault::Fault;
use crate::open::Open;
use graphite_text::{
    AFTER_END_RULE, DECLARED_RULE, EDGE_LIMIT, ENDS_RULE, HEADER_RULE, LIMIT_RULE, LINE_RULE, Line,
    NEW_NAME_RULE, ORDER_RULE, OVERLAP_RULE, OWNER_RULE, PROPERTY_LIMIT, Record, Span, TRAVEL_RULE,
    VERTEX_LIMIT, is_header, is_wrong_start, record_of,
};
use graphite_time::Interval;
use std::alloc::Global;
use std::marker::Model;

/// What is known after the lines so far of a text.
#[derive(Drop)]
pub(crate) struct Reader<'a> {
    alloc: Global,
    started: bool,
    ended: bool,
    graph: Open<'a>,
}

impl<'a> Model for Reader<'a> {
    ghost use Rattle.std.specs.Prelude.{◌≡◌, false};
    ghost use Rattle.graphite_text.specs.Reading.{Known, nothing_known};

    ghost Value = { Known };

    ghost view = { λ reader. record { started = reader.started; ended = reader.ended; graph = reader.graph } };

    ghost invariant = { λ reader. reader.started ≡ false → reader.graph ≡ nothing_known.graph };
}

/// The instants of a span, where it holds any and does not go past the horizon.
fn interval_by(over: Span, horizon: u64) -> Option<Interval>
    requires { horizon ≤ LAST }
    ensures proper { is_some result ≡ (nat_lt over.a over.b && nat_le over.b horizon) }
    ensures same { IfSome result (λ interval. as_span interval ≡ over) }
    ensures within { IfSome result (λ interval. end_of interval ≤ horizon) }
{
    if over.b > horizon {
        return None;
    }
    Interval::new(over.a, over.b)
}

/// The rule that a name which is taken breaks, or else another.
fn name_rule_or(taken: bool, rule: u8) -> u8
    ensures { result ≡ (if taken then NEW_NAME_RULE else rule) }
{
    if taken { NEW_NAME_RULE } else { rule }
}

/// The rule that a property which overlaps an earlier one breaks, or else another.
fn overlap_rule_or(overlaps: bool, rule: u8) -> u8
    ensures { result ≡ (if overlaps then OVERLAP_RULE else rule) }
{
    if overlaps { OVERLAP_RULE } else { rule }
}

/// Whether a property of an edge says that it takes no time to travel.
fn is_stopped(key: &[u8], value: u32) -> bool
    ensures { result ≡ is_stopped key.now value }
{
    key == b"time".as_slice() && value == 0
}

impl<'a> Reader<'a> {
    pub(crate) fn new(alloc: Global) -> Reader<'a>
        ensures { result ≡ nothing_known }
    {
        Reader {
            alloc,
            started: false,
            ended: false,
            graph: Open::new(alloc, 0),
        }
    }

    /// The graph, once `end` was read.
    pub(crate) fn finish(self) -> Option<Open<'a>>
        ensures { result ≡ (if self.entry.ended then Some self.entry.graph else None) }
    {
        let Reader { ended, graph, .. } = self;
        if ended { Some(graph) } else { None }
    }

    /// Takes the next line of the text.
    pub(crate) fn take_line(&mut self, line: Line<'a>) -> Result<(), Fault>
        ensures ok { OnOk result (after_line self.old (text_line line.entry) ≡ Ok self.new) }
        ensures err { IfErr result (ExplainsLine self.old (text_line line.entry)) }
    {
        if !line.ended {
            return Err(Fault::Rule(LINE_RULE));
        }
        match record_of(line.bytes) {
            Ok(None) => Ok(()),
            Ok(Some(said)) => self.take_said(line.bytes, said),
            Err(rule) => Err(Fault::Rule(self.least_rule(line.bytes, rule))),
        }
    }

    /// The least rule that a line breaks, where by its form alone it breaks this one.
    fn least_rule(&self, line: &[u8], rule: u8) -> u8
        ensures { result ≡ (if rule == LINE_RULE then LINE_RULE else unwrap_or (misplaced self.now line.now) rule) }
    {
        if rule == LINE_RULE {
            return rule;
        }
        self.misplaced(line).unwrap_or(rule)
    }

    /// The rule that a record breaks by where it stands.
    fn misplaced(&self, line: &[u8]) -> Option<u8>
        ensures { result ≡ misplaced self.now line.now }
    {
        if self.ended {
            return Some(AFTER_END_RULE);
        }
        let is_broken = if self.started {
            is_header(line)
        } else {
            is_wrong_start(line)
        };
        is_broken.then_some(HEADER_RULE)
    }

    /// Takes the record that a line says.
    fn take_said(&mut self, line: &[u8], said: Record<'a>) -> Result<(), Fault>
        requires { line_form line.now ≡ Ok (Some (form_of_record said)) }
        ensures ok { OnOk result (after_line self.old (record { bytes = line.now; ended = true }) ≡ Ok self.new) }
        ensures err { IfErr result (ExplainsLine self.old (record { bytes = line.now; ended = true })) }
    {
        if let Some(rule) = self.misplaced(line) {
            return Err(Fault::Rule(rule));
        }
        self.take_record(said)
    }

    fn take_record(&mut self, said: Record<'a>) -> Result<(), Fault>
        requires { IsPlaced self.old (form_of_record said) }
        ensures ok { OnOk result (after_form self.old (form_of_record said.entry) ≡ Ok self.new) }
        ensures err { IfErr result (ExplainsRecord self.old (form_of_record said.entry)) }
    {
        match said {
            Record::Graph { horizon, .. } => {
                self.started = true;
                self.graph.set_horizon(horizon);
                Ok(())
            }
            Record::Vertex { name, over } => self.take_vertex(name, over),
            Record::Edge {
                name,
                from,
                to,
                over,
            } => self.take_edge(name, from, to, over),
            Record::VertexProp {
                owner,
                key,
                over,
                value,
            } => self.take_vertex_property(owner, key, over, value),
            Record::EdgeProp {
                owner,
                key,
                over,
                value,
            } => self.take_edge_property(owner, key, over, value),
            Record::End => {
                self.ended = true;
                Ok(())
            }
        }
    }

    fn take_vertex(&mut self, name: &'a [u8], over: Span) -> Result<(), Fault>
        requires { IsOpen self.old }
        ensures ok { OnOk result (after_form self.old (Vertex name.now over) ≡ Ok self.new) }
        ensures err { IfErr result (ExplainsRecord self.old (Vertex name.now over)) }
    {
        let Some(over) = interval_by(over, self.graph.horizon()) else {
            return Err(Fault::Rule(ORDER_RULE));
        };
        if self.graph.vertices() == VERTEX_LIMIT {
            let taken = self.graph.find_vertex(name).is_some();
            return Err(Fault::Rule(name_rule_or(taken, LIMIT_RULE)));
        }
        if self.graph.add_vertex(self.alloc, name, over)? {
            Ok(())
        } else {
            Err(Fault::Rule(NEW_NAME_RULE))
        }
    }

    fn take_edge(&mut self, name: &'a [u8], from: &[u8], to: &[u8], over: Span) -> Result<(), Fault>
        requires { IsOpen self.old }
        ensures ok { OnOk result (after_form self.old (Edge name.now from.now to.now over) ≡ Ok self.new) }
        ensures err { IfErr result (ExplainsRecord self.old (Edge name.now from.now to.now over)) }
    {
        let Some(over) = interval_by(over, self.graph.horizon()) else {
            return Err(Fault::Rule(ORDER_RULE));
        };
        match self.place_of(from, to, over) {
            Ok(ends) => {
                if self.graph.add_edge(self.alloc, name, ends, over)? {
                    Ok(())
                } else {
                    Err(Fault::Rule(NEW_NAME_RULE))
                }
            }
            Err(rule) => {
                let taken = self.graph.find_edge(name).is_some();
                Err(Fault::Rule(name_rule_or(taken, rule)))
            }
        }
    }

    /// The ends of an edge, or the least of the rules on what is declared, on ends and on limits that
    /// it breaks.
    fn place_of(&self, from: &[u8], to: &[u8], over: Interval) -> Result<Ends, u8>
        ensures from { IfOk result (λ ends. vertex_number self.now.graph from.now ≡ Some ends.from) }
        ensures to { IfOk result (λ ends. vertex_number self.now.graph to.now ≡ Some ends.to) }
        ensures among { IfOk result (AreAmong (length self.now.graph.vertices)) }
        ensures room { OnOk result (length self.now.graph.edges < EDGE_LIMIT) }
        ensures kept { OnOk result ((name : List ℕ) → place_broken self.now (Edge name from.now to.now (as_span over)) ≡ None) }
        ensures broken { IfErr result (λ rule. (name : List ℕ)
            → place_broken self.now (Edge name from.now to.now (as_span over)) ≡ Some rule) }
    {
        let Some(ends) = self.graph.find_ends(from, to) else {
            return Err(DECLARED_RULE);
        };
        if !self.graph.are_alive_throughout(ends, over) {
            return Err(ENDS_RULE);
        }
        if self.graph.edges() == EDGE_LIMIT {
            return Err(LIMIT_RULE);
        }
        Ok(ends)
    }

    fn take_vertex_property(
        &mut self,
        owner: &[u8],
        key: &'a [u8],
        over: Span,
        value: u32,
    ) -> Result<(), Fault>
        requires { IsOpen self.old }
        ensures ok { OnOk result (after_form self.old (VertexProperty owner.now key.now over value) ≡ Ok self.new) }
        ensures err { IfErr result (ExplainsRecord self.old (VertexProperty owner.now key.now over value)) }
    {
        let Some(over) = interval_by(over, self.graph.horizon()) else {
            return Err(Fault::Rule(ORDER_RULE));
        };
        match self.owning_vertex(owner, over) {
            Ok(v) => self.add_vertex_property(v, key, over, value),
            Err(rule) => Err(Fault::Rule(rule)),
        }
    }

    /// The vertex that owns a property, or the least of the rules on what is declared and on owners
    /// that the property breaks.
    fn owning_vertex(&self, name: &[u8], over: Interval) -> Result<u32, u8>
        ensures number { IfOk result (λ v. vertex_number self.now.graph name.now ≡ Some v) }
        ensures among { IfOk result (λ v. v < length self.now.graph.vertices) }
        ensures kept { OnOk result ((key : List ℕ) (value : ℕ)
            → owner_broken self.now (VertexProperty name.now key (as_span over) value) ≡ None) }
        ensures broken { IfErr result (λ rule. (key : List ℕ) (value : ℕ)
            → owner_broken self.now (VertexProperty name.now key (as_span over) value) ≡ Some rule) }
    {
        let Some(v) = self.graph.find_property_vertex(name) else {
            return Err(DECLARED_RULE);
        };
        if !self.graph.is_alive_throughout(v, over) {
            return Err(OWNER_RULE);
        }
        Ok(v)
    }

    /// Adds a property of a vertex, unless it overlaps an earlier one or is one too many.
    fn add_vertex_property(
        &mut self,
        v: u32,
        key: &'a [u8],
        over: Interval,
        value: u32,
    ) -> Result<(), Fault>
        requires is_open { IsOpen self.old }
        requires among { v < length self.old.graph.vertices }
        ensures kept { OnOk result (vertex_property_broken self.old v key.now (as_span over) ≡ None) }
        ensures ok { OnOk result (self.new ≡ record self.old {
          graph = with_vertex_property self.old.graph (property v key.now over value);
        }) }
        ensures err { IfErr result (ExplainsRule (vertex_property_broken self.old v key.now (as_span over))) }
    {
        if self.is_full() {
            let overlaps = self.graph.vertex_rows().overlaps(v, key, over);
            return Err(Fault::Rule(overlap_rule_or(overlaps, LIMIT_RULE)));
        }
        self.graph.add_vertex_property(v, key, over, value)?;
        Ok(())
    }

    fn take_edge_property(
        &mut self,
        owner: &[u8],
        key: &'a [u8],
        over: Span,
        value: u32,
    ) -> Result<(), Fault>
        requires { IsOpen self.old }
        ensures ok { OnOk result (after_form self.old (EdgeProperty owner.now key.now over value) ≡ Ok self.new) }
        ensures err { IfErr result (ExplainsRecord self.old (EdgeProperty owner.now key.now over value)) }
    {
        let Some(over) = interval_by(over, self.graph.horizon()) else {
            return Err(Fault::Rule(ORDER_RULE));
        };
        match self.owning_edge(owner, over) {
            Ok(e) => self.add_edge_property(e, key, over, value),
            Err(rule) => Err(Fault::Rule(rule)),
        }
    }

    /// The edge that owns a property, or the least of the rules on what is declared and on owners
    /// that the property breaks.
    fn owning_edge(&self, name: &[u8], over: Interval) -> Result<u32, u8>
        ensures number { IfOk result (λ e. edge_number self.now.graph name.now ≡ Some e) }
        ensures among { IfOk result (λ e. e < length self.now.graph.edges) }
        ensures kept { OnOk result ((key : List ℕ) (value : ℕ)
            → owner_broken self.now (EdgeProperty name.now key (as_span over) value) ≡ None) }
        ensures broken { IfErr result (λ rule. (key : List ℕ) (value : ℕ)
            → owner_broken self.now (EdgeProperty name.now key (as_span over) value) ≡ Some rule) }
    {
        let Some(e) = self.graph.find_property_edge(name) else {
            return Err(DECLARED_RULE);
        };
        if !self.graph.edge_is_alive_throughout(e, over) {
            return Err(OWNER_RULE);
        }
        Ok(e)
    }

    /// Adds a property of an edge, unless it overlaps an earlier one, is a travel time of 0, or is one
    /// too many.
    fn add_edge_property(
        &mut self,
        e: u32,
        key: &'a [u8],
        over: Interval,
        value: u32,
    ) -> Result<(), Fault>
        requires is_open { IsOpen self.old }
        requires among { e < length self.old.graph.edges }
        ensures kept { OnOk result (edge_property_broken self.old e key.now (as_span over) value ≡ None) }
        ensures ok { OnOk result (self.new ≡ record self.old {
          graph = with_edge_property self.old.graph (property e key.now over value);
        }) }
        ensures err { IfErr result (ExplainsRule (edge_property_broken self.old e key.now (as_span over) value)) }
    {
        if let Some(rule) = self.late_rule(key, value) {
            let overlaps = self.graph.edge_rows().overlaps(e, key, over);
            return Err(Fault::Rule(overlap_rule_or(overlaps, rule)));
        }
        self.graph.add_edge_property(e, key, over, value)?;
        Ok(())
    }

    /// The least of the rules on travel times and on limits that a property of an edge breaks.
    fn late_rule(&self, key: &[u8], value: u32) -> Option<u8>
        ensures { result ≡ late_broken self.now key.now value }
    {
        if is_stopped(key, value) {
            return Some(TRAVEL_RULE);
        }
        self.is_full().then_some(LIMIT_RULE)
    }

    fn is_full(&self) -> bool
        ensures { result ≡ is_full self.now }
    {
        self.graph.properties() >= PROPERTY_LIMIT as usize
    }
}
