// Which sites flow to what reads find.
ghost use Rattle.std.specs.Prelude.{◌≡◌, slice_get};
ghost use Rattle.std.specs.Option.{option_and_then};
ghost use Rattle.c_graph.specs.declared.graph.Node.{Node};
ghost use Rattle.mf_set.specs.Numbers.{has};
ghost use Rattle.ts_domain.specs.Marks.{field_at, flows, knowledge, makes_struct, meets, shares, sites_to, some_beyond, some_in_field, some_in_name};
ghost use Rattle.ts_domain.specs.May.{flows_to, struct_of, struct_of_action, struct_of_kind, struct_of_size};

use crate::facts::May;
use crate::known::Known;
use crate::names::{Names, Read};
use c_graph::{Action, Graph, NodeKind};
use c_tree::Size;
use mf_set::BitSet;

fn struct_of_size(size: &Size) -> Option<usize>
    ensures { result ≡ struct_of_size size.now }
{
    match size {
        Size::Fields(of) => Some(*of),
        Size::Ints(_) => None,
    }
}

fn struct_made(action: &Action) -> Option<usize>
    ensures { result ≡ struct_of_action action.now }
{
    match action {
        Action::Malloc(_, size, _) => struct_of_size(size),
        Action::Unset(_)
        | Action::Assign(_)
        | Action::Getchar(_)
        | Action::Putchar(_)
        | Action::Printf(_, _)
        | Action::Test(_)
        | Action::Call(_, _)
        | Action::Return(_)
        | Action::Close => None,
    }
}

fn struct_of_kind(kind: &NodeKind) -> Option<usize>
    ensures { result ≡ struct_of_kind kind.now }
{
    match kind {
        NodeKind::Gap(_, _) => None,
        NodeKind::Act(action) => struct_made(action),
        NodeKind::Exit(_) => None,
    }
}

fn struct_at(graph: &Graph, node: usize) -> Option<usize>
    ensures { result ≡ option_and_then (λ (v : Node). struct_of_kind v.kind) (slice_get graph.now.nodes node) }
{
    match graph.nodes.get(node) {
        None => None,
        Some(node) => struct_of_kind(&node.kind),
    }
}

/// The struct of the objects of a site, if it makes one.
pub fn struct_of(graph: &Graph, names: &Names, site: usize) -> Option<usize>
    ensures { result ≡ struct_of names.now graph.now site }
{
    match names.sites.get(site) {
        None => None,
        Some(node) => struct_at(graph, *node),
    }
}

/// Whether a site makes objects of a struct.
pub fn makes_struct(graph: &Graph, names: &Names, of: usize, site: usize) -> bool
    ensures { result ≡ makes_struct names.now graph.now of site }
{
    match struct_of(graph, names, site) {
        None => false,
        Some(made) => made == of,
    }
}

/// The variable and the field of an expression, if it is a field.
pub fn field_at(names: &Names, expression: usize) -> Option<(usize, usize)>
    ensures { result ≡ field_at names.now expression }
{
    if expression < names.vars.len() {
        return None;
    }
    names.fields.get(expression - names.vars.len()).copied()
}

/// Whether a site flows to a variable.
pub fn flows_to(may: &May, variable: usize, site: usize) -> bool
    ensures value { result ≡ flows_to may.now variable site }
    ensures items { result ≡ has (sites_to may.now variable) site }
{
    match may.vars.get(variable) {
        None => false,
        Some(sites) => sites.contains(site),
    }
}

/// Whether a site flows to a field of some site of a variable.
fn flows_beyond(may: &May, variable: usize, field: usize, site: usize) -> bool
    ensures { result ≡ some_beyond may.now (flows_to may.now variable) field (λ ss. has ss site) }
{
    may.fields.as_slice().iter().any(|x| {
        flows_to(may, variable, x.0) && x.1 == field && x.2.contains(site)
    })
}

fn flows_to_field(may: &May, field: Option<(usize, usize)>, site: usize) -> bool
    ensures { result ≡ some_in_field may.now (λ ss. has ss site) field }
{
    match field {
        None => false,
        Some((variable, field)) => flows_beyond(may, variable, field, site),
    }
}

fn flows_to_name(known: Known, expression: usize, site: usize) -> bool
    ensures { result ≡ some_in_name (knowledge known.entry) (λ ss. has ss site) expression }
{
    let may = &known.facts.may;
    if expression < known.names.vars.len() {
        return flows_to(may, expression, site);
    }
    flows_to_field(may, field_at(known.names, expression), site)
}

/// Whether a site flows to a field of some site of a struct.
fn flows_behind(known: Known, of: usize, field: usize, site: usize) -> bool
    ensures { result ≡ some_beyond known.entry.facts.now.may (makes_struct known.entry.names.now known.entry.graph.now of) field (λ ss. has ss site) }
{
    let fields = known.facts.may.fields.as_slice();
    fields.iter().any(|x| {
        makes_struct(known.graph, known.names, of, x.0) && x.1 == field && x.2.contains(site)
    })
}

/// Whether a site flows to what a read finds.
pub fn flows(known: Known, site: usize, read: Read) -> bool
    ensures { result ≡ flows (knowledge known.entry) site read }
{
    match read {
        Read::Name(expression) => flows_to_name(known, expression, site),
        Read::Deep(of, field) => flows_behind(known, of, field, site),
    }
}

/// Whether some site flows to a variable and is in a set.
pub fn shares_to(may: &May, variable: usize, sites: &BitSet) -> bool
    ensures { result ≡ meets (sites_to may.now variable) sites.now.items }
{
    match may.vars.get(variable) {
        None => false,
        Some(own) => own.first_common(sites).is_some(),
    }
}

fn shares_beyond(may: &May, other: usize, variable: usize, field: usize) -> bool
    ensures { result ≡ some_beyond may.now (flows_to may.now variable) field (meets (sites_to may.now other)) }
{
    may.fields.as_slice().iter().any(|x| {
        flows_to(may, variable, x.0) && x.1 == field && shares_to(may, other, &x.2)
    })
}

fn shares_field(may: &May, other: usize, field: Option<(usize, usize)>) -> bool
    ensures { result ≡ some_in_field may.now (meets (sites_to may.now other)) field }
{
    match field {
        None => false,
        Some((variable, field)) => shares_beyond(may, other, variable, field),
    }
}

/// Whether some site flows to both of two variables.
#[tactic(auto, using(crate::proofs::SiteLaws::meets_none))]
pub fn shares_variable(may: &May, other: usize, variable: usize) -> bool
    ensures { result ≡ meets (sites_to may.now other) (sites_to may.now variable) }
{
    match may.vars.get(variable) {
        None => false,
        Some(sites) => shares_to(may, other, sites),
    }
}

fn shares_name(known: Known, other: usize, expression: usize) -> bool
    ensures { result ≡ some_in_name (knowledge known.entry) (meets (sites_to known.entry.facts.now.may other)) expression }
{
    let may = &known.facts.may;
    if expression < known.names.vars.len() {
        return shares_variable(may, other, expression);
    }
    shares_field(may, other, field_at(known.names, expression))
}

fn shares_behind(known: Known, other: usize, of: usize, field: usize) -> bool
    ensures { result ≡ some_beyond known.entry.facts.now.may (makes_struct known.entry.names.now known.entry.graph.now of) field (meets (sites_to known.entry.facts.now.may other)) }
{
    let may = &known.facts.may;
    may.fields.as_slice().iter().any(|x| {
        makes_struct(known.graph, known.names, of, x.0)
            && x.1 == field
            && shares_to(may, other, &x.2)
    })
}

/// Whether some site flows both to a variable and to what a read finds.
pub fn shares(known: Known, variable: usize, read: Read) -> bool
    ensures { result ≡ shares (knowledge known.entry) variable read }
{
    match read {
        Read::Name(expression) => shares_name(known, variable, expression),
        Read::Deep(of, field) => shares_behind(known, variable, of, field),
    }
}
