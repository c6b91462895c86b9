// Whether a write makes a site flow to where it isn't noted to flow.
ghost use Rattle.std.specs.Prelude.{◌≡◌};
ghost use Rattle.std.specs.List.{list_any};
ghost use Rattle.ts_domain.specs.Marks.{knowledge};
ghost use Rattle.ts_domain.specs.May.{flows_into, flows_to, read_of};
ghost use Rattle.cover_certificate.specs.Closed.{adds_flow, adds_to_field, adds_to_variable, is_target, some_site, takes};

use ts_domain::{Deed, Known, Looked, May, Read, Source, flows, makes_struct};

fn read_of(looked: Looked) -> Read
    ensures { result ≡ read_of looked }
{
    match looked {
        Looked::Name(name) => Read::Name(name),
        Looked::Deep(of, field, _) => Read::Deep(of, field),
    }
}

fn takes(known: Known, source: Source, site: usize) -> bool
    ensures { result ≡ takes (knowledge known.entry) source site }
{
    match source {
        Source::Content(looked) => flows(known, site, read_of(looked)),
        Source::Null => false,
        Source::New(made) => made == site,
        Source::Undef => false,
    }
}

fn flows_to(may: &May, variable: usize, site: usize) -> bool
    ensures { result ≡ flows_to may.now variable site }
{
    match may.vars.get(variable) {
        None => false,
        Some(sites) => sites.contains(site),
    }
}

fn flows_into(may: &May, base: usize, field: usize, site: usize) -> bool
    ensures { result ≡ flows_into may.now base field site }
{
    may.fields
        .as_slice()
        .iter()
        .any(|x| x.0 == base && x.1 == field && x.2.contains(site))
}

fn adds_to_variable(known: Known, variable: usize, source: Source, site: usize) -> bool
    ensures { result ≡ adds_to_variable (knowledge known.entry) variable source site }
{
    takes(known, source, site) && !flows_to(&known.facts.may, variable, site)
}

fn adds_to_field(known: Known, base: usize, field: usize, source: Source, site: usize) -> bool
    ensures { result ≡ adds_to_field (knowledge known.entry) base field source site }
{
    takes(known, source, site) && !flows_into(&known.facts.may, base, field, site)
}

fn adds_some_to_variable(known: Known, variable: usize, source: Source) -> bool
    ensures { result ≡ some_site known.entry.names.now (adds_to_variable (knowledge known.entry) variable source) }
{
    (0..known.names.sites.len()).any(|site| adds_to_variable(known, variable, source, site))
}

fn is_target(known: Known, base: Read, of: usize, site: usize) -> bool
    ensures { result ≡ is_target (knowledge known.entry) base of site }
{
    flows(known, site, base) && makes_struct(known.graph, known.names, of, site)
}

fn adds_some_to_field(known: Known, base: usize, field: usize, source: Source) -> bool
    ensures { result ≡ some_site known.entry.names.now (adds_to_field (knowledge known.entry) base field source) }
{
    (0..known.names.sites.len()).any(|site| adds_to_field(known, base, field, source, site))
}

fn adds_to_targets(known: Known, base: Read, of: usize, field: usize, source: Source) -> bool
    ensures { result ≡ adds_flow (knowledge known.entry) (Deed.SetsField base of field source) }
{
    (0..known.names.sites.len()).any(|site| {
        is_target(known, base, of, site) && adds_some_to_field(known, site, field, source)
    })
}

fn adds_flow(known: Known, deed: Deed) -> bool
    ensures { result ≡ adds_flow (knowledge known.entry) deed }
{
    match deed {
        Deed::Sets(variable, source) => adds_some_to_variable(known, variable, source),
        Deed::SetsField(base, of, field, source) => {
            adds_to_targets(known, base, of, field, source)
        }
        Deed::Reads(_, _) => false,
        Deed::Follows(_) => false,
        Deed::Says(_) => false,
    }
}

/// Whether one of these deeds does.
pub fn add_flow(known: Known, deeds: &[Deed]) -> bool
    ensures { result ≡ list_any (adds_flow (knowledge known.entry)) deeds.now }
{
    deeds.iter().any(|deed| adds_flow(known, *deed))
}
