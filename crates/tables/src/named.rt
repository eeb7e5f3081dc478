// The records that a change names (01, "What a change may write"): of each line, spans that follow one another.
ghost use Rattle.std.specs.Prelude.{◌≡◌, ◌≤◌};
ghost use Rattle.tables.specs.Named.{whole_if, end_span, named_spans};
ghost use Rattle.tables.specs.Asked.{Naming};

use plan::ways::{Way, across, line_kind, span_kind};
use records::kinds::LOADS;

// Spans from `from` on, below `to`. Not the library's range, which is not `Copy`.
#[derive(Clone, Copy)]
pub struct Spans {
    pub from: u32,
    pub to: u32,
}

// A record of the floor, as a change names it. The kind is a number, not an enum: C's format and the clauses speak of any number.
#[derive(Clone, Copy)]
pub struct Named {
    pub kind: u32,
    pub index: u32,
}

// The record of the loads, whose change names every span.
pub const EVERYTHING: Named = Named {
    kind: LOADS,
    index: 0,
};

fn whole_if(test: bool, n: u32) -> Spans
    ensures { result ≡ whole_if test n }
{
    if test {
        Spans { from: 0, to: n }
    } else {
        Spans { from: 0, to: 0 }
    }
}

// Of a frame of n spans, the one that ends at line j across it, where j is an outer line.
fn end_span(n: u32, j: u32) -> Spans
    requires { 1 ≤ n }
    ensures { result ≡ end_span n j }
{
    if j == 0 {
        return Spans { from: 0, to: 1 };
    }
    if j == n {
        return Spans { from: n - 1, to: n };
    }
    Spans { from: 0, to: 0 }
}

// Of line l along d, with n spans, those that a change names.
pub fn named_spans(named: Named, d: Way, l: u32, n: u32) -> Spans
    requires { Naming n named.index }
    ensures { result ≡ named_spans named.kind named.index d l n }
{
    let Named { kind, index } = named;
    let over = across(d);
    if kind == LOADS {
        return Spans { from: 0, to: n };
    }
    if kind == span_kind(d) {
        return Spans {
            from: index,
            to: index + 1,
        };
    }
    if kind == span_kind(over) {
        return whole_if(l == index || l == index + 1, n);
    }
    if kind == line_kind(d) {
        return whole_if(l == index, n);
    }
    if kind == line_kind(over) {
        return end_span(n, index);
    }
    Spans { from: 0, to: 0 }
}
