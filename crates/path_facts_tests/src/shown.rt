// The facts at nodes, as lines: of each node whose facts are other than those at the node before it the numbers, runs of them
// by their ends.
use mf_list::Memory;
use mf_set::BitSet;
use std::alloc::Global;
use ts_domain::Path;

fn show_number(lines: &mut String, facts: &BitSet, number: usize) -> Result<(), Memory> {
    let begins = number == 0 || !facts.contains(number - 1);
    let ends = number
        .checked_add(1)
        .is_none_or(|next| !facts.contains(next));
    if begins {
        write!(lines, " {number}")
    } else if ends {
        write!(lines, "-{number}")
    } else {
        Ok(())
    }
}

fn show_facts(alloc: Global, lines: &mut String, facts: &BitSet) -> Result<(), Memory> {
    if facts.is_empty() {
        return lines.push_str(" -");
    }
    for number in facts.to_vec(alloc)?.as_slice() {
        show_number(lines, facts, *number)?;
    }
    Ok(())
}

fn show_node(alloc: Global, lines: &mut String, node: usize, facts: &BitSet) -> Result<(), Memory> {
    if !lines.is_empty() {
        lines.push_str("\n")?;
    }
    write!(lines, "{node}:")?;
    show_facts(alloc, lines, facts)
}

pub fn shown(alloc: Global, path: &Path) -> Result<String, Memory> {
    let mut lines = String::new(alloc);
    let mut last: Option<&BitSet> = None;
    for (node, facts) in path.at.as_slice().iter().enumerate() {
        if last.is_none_or(|before| before != facts) {
            show_node(alloc, &mut lines, node, facts)?;
        }
        last = Some(facts);
    }
    Ok(lines)
}
