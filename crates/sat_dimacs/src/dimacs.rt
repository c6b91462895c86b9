//! Clauses, and a log, as DIMACS text: numbers from 1, with `-` for a negation, and 0 behind each clause. Lines that
//! begin with `c`, `p` or `d` are skipped; behind a line that begins with `l` come the clauses of a log.
use mf_list::{Memory, Seq};
use sat_log::{Clauses, Lit, Log};
use std::alloc::Global;
use std::mem;

/// A text that is being read.
#[derive(Drop)]
struct Reader {
    alloc: Global,
    list: Seq<Seq<Lit>>,
    log: Seq<Seq<Lit>>,
    vars: usize,
    clause: Seq<Lit>,
    number: Option<usize>,
    yes: bool,
    skips: bool,
    in_log: bool,
}

impl Reader {
    fn new(alloc: Global) -> Reader {
        Reader {
            alloc,
            list: Seq::new(alloc),
            log: Seq::new(alloc),
            vars: 0,
            clause: Seq::new(alloc),
            number: None,
            yes: true,
            skips: false,
            in_log: false,
        }
    }

    fn end_clause(&mut self) -> Result<(), Memory> {
        let clause = mem::replace(&mut self.clause, Seq::new(self.alloc));
        if self.in_log {
            self.log.push(clause)
        } else {
            self.list.push(clause)
        }
    }

    /// Takes the number that ends here, if one does.
    fn end_number(&mut self) -> Result<(), Memory> {
        let yes = mem::replace(&mut self.yes, true);
        match self.number.take() {
            None => Ok(()),
            Some(0) => self.end_clause(),
            Some(number) => {
                self.vars = self.vars.max(number);
                self.clause.push(Lit {
                    var: number - 1,
                    yes,
                })
            }
        }
    }

    fn read(&mut self, byte: u8, begins: bool) -> Result<(), Memory> {
        match byte {
            b'\n' => {
                self.skips = false;
                self.end_number()
            }
            _ if self.skips => Ok(()),
            b'c' | b'p' | b'd' if begins => {
                self.skips = true;
                Ok(())
            }
            b'l' if begins => {
                self.skips = true;
                self.in_log = true;
                Ok(())
            }
            b'-' => {
                self.yes = false;
                Ok(())
            }
            b'0'..=b'9' => {
                let digit = (byte - b'0') as usize;
                self.number = Some(
                    self.number
                        .unwrap_or(0)
                        .saturating_mul(10)
                        .saturating_add(digit),
                );
                Ok(())
            }
            _ => self.end_number(),
        }
    }
}

pub fn read(alloc: Global, text: &[u8]) -> Result<(Clauses, Log), Memory> {
    let mut reader = Reader::new(alloc);
    let mut begins = true;
    for byte in text {
        reader.read(*byte, begins)?;
        begins = *byte == b'\n';
    }
    reader.end_number()?;
    let Reader {
        list,
        log,
        vars,
        ..
    } = reader;
    Ok((Clauses { vars, list }, Log { list: log }))
}
