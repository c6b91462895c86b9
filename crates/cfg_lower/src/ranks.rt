// The rank of a path among paths that ascend.
ghost use Rattle.std.specs.Prelude.{◌≡◌};
ghost use Rattle.cfg_lower.specs.Ranks.{Ascends, rank as rank_in};

use mf_list::Seq;

/// How many of the paths stand before the path, if it is one of them.
pub fn rank(paths: &[Seq<usize>], path: &[usize]) -> Option<usize>
    requires { Ascends paths.now }
    ensures { result ≡ rank_in path.now paths.now }
{
    match paths.binary_search_by(|other| other.as_slice().cmp(path)) {
        Ok(at) => Some(at),
        Err(_) => None,
    }
}
