// Names as text.
use c_tree::Put;
use mf_list::Memory;
use std::alloc::Global;
use ts_domain::Names;

fn show_expression(line: &mut String, var: usize, field: Option<usize>) -> Result<(), Memory> {
    match field {
        None => write!(line, "v{var}"),
        Some(field) => write!(line, "v{var}.{field}"),
    }
}

fn show_next(line: &mut String, var: usize, field: Option<usize>) -> Result<(), Memory> {
    if !line.is_empty() {
        line.push_str(" ")?;
    }
    show_expression(line, var, field)
}

/// The pointing expressions by number.
pub fn shown_expressions(alloc: Global, names: &Names) -> Result<String, Memory> {
    let mut line = String::new(alloc);
    for var in names.vars.as_slice() {
        show_next(&mut line, *var, None)?;
    }
    for (place, field) in names.fields.as_slice() {
        let var = names.vars.as_slice().get(*place).copied();
        show_next(&mut line, var.unwrap_or(usize::MAX), Some(*field))?;
    }
    Ok(line)
}

/// The nodes of sites.
pub fn shown_sites(alloc: Global, names: &Names) -> Result<String, Memory> {
    let mut line = String::new(alloc);
    for site in names.sites.as_slice() {
        if !line.is_empty() {
            line.push_str(" ")?;
        }
        write!(line, "{site}")?;
    }
    Ok(line)
}

/// The puts of one gap.
pub fn shown_puts(alloc: Global, gap: usize, puts: &[Put]) -> Result<String, Memory> {
    let mut line = String::new(alloc);
    write!(line, "{gap}:")?;
    for put in puts {
        if put.gap == gap {
            line.push_str(" ")?;
            show_expression(&mut line, put.var, put.field)?;
        }
    }
    Ok(line)
}
