// What flows where, as a line: of each variable and each field of a site the sites that flow there, if there are any.
use mf_list::Memory;
use mf_set::BitSet;
use std::alloc::Global;
use ts_domain::May;

fn show_sites(alloc: Global, line: &mut String, sites: &BitSet) -> Result<(), Memory> {
    for site in sites.to_vec(alloc)?.as_slice() {
        write!(line, " {site}")?;
    }
    Ok(())
}

fn show_start(line: &mut String) -> Result<(), Memory> {
    if line.is_empty() {
        Ok(())
    } else {
        line.push_str("; ")
    }
}

fn show_var(
    alloc: Global,
    line: &mut String,
    variable: usize,
    sites: &BitSet,
) -> Result<(), Memory> {
    if sites.is_empty() {
        return Ok(());
    }
    show_start(line)?;
    write!(line, "{variable}:")?;
    show_sites(alloc, line, sites)
}

fn show_field(
    alloc: Global,
    line: &mut String,
    site: usize,
    field: usize,
    sites: &BitSet,
) -> Result<(), Memory> {
    show_start(line)?;
    write!(line, "field {field} of site {site}:")?;
    show_sites(alloc, line, sites)
}

fn show_vars(alloc: Global, line: &mut String, vars: &[BitSet]) -> Result<(), Memory> {
    for (variable, sites) in vars.iter().enumerate() {
        show_var(alloc, line, variable, sites)?;
    }
    Ok(())
}

fn show_fields(
    alloc: Global,
    line: &mut String,
    fields: &[(usize, usize, BitSet)],
) -> Result<(), Memory> {
    for (site, field, sites) in fields {
        show_field(alloc, line, *site, *field, sites)?;
    }
    Ok(())
}

pub fn shown(alloc: Global, may: &May) -> Result<String, Memory> {
    let mut line = String::new(alloc);
    show_vars(alloc, &mut line, may.vars.as_slice())?;
    show_fields(alloc, &mut line, may.fields.as_slice())?;
    Ok(line)
}
