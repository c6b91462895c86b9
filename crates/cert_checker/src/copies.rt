// The facts of a certificate once more.
ghost use Rattle.std.specs.Prelude.{◌≡◌, IfOk};
ghost use Rattle.cover_certificate.specs.Closed.{facts_of};

use cover_certificate::{Cert, may_copy, path_copy};
use mf_list::Memory;
use std::alloc::Global;
use ts_domain::Facts;

pub fn facts_of(alloc: Global, cert: &Cert) -> Result<Facts, Memory>
    ensures { IfOk result (λ facts. facts ≡ facts_of cert.now) }
{
    let may = may_copy(alloc, &cert.may)?;
    let path = path_copy(alloc, &cert.path)?;
    Ok(Facts { may, path })
}
