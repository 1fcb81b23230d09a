// Paths as values.
ghost use Rattle.std.specs.Prelude.{◌≡◌, ◌+◌, ◌*◌, ◌≤◌, ◌<◌, length};
ghost use Rattle.loaded_embedding.specs.Loaded.{PathsBounded, edge_places};
ghost use Rattle.embedding_clash.specs.Paths.{path_in, path_of, PathsAt};
ghost use Rattle.model.specs.Definitions.TableChecks.{max_members};
ghost use Rattle.model.specs.Definitions.EmbeddingChecks.{max_steps};

use codes::{MAX_MEMBERS, MAX_STEPS};
use loaded_embedding::MAP;

// The steps of the path whose 21 stands at `start`, in order, and then zeros.
fn path_at(em: &[u8], start: usize, count: usize) -> [u8; MAX_STEPS]
    requires { (count ≤ max_steps) × (start + 1 + 2 * count ≤ length em.now) }
    ensures { result ≡ path_in em.now start count }
{
    let mut path = [0u8; MAX_STEPS];
    for i in 0..count {
        path[i] = em[start + 2 + 2 * i];
    }
    path
}

// The path of the edge at a place, as a value.
fn edge_path(em: &[u8], map: &[u16; MAP], edge: usize) -> [u8; MAX_STEPS]
    requires paths_bounded { PathsBounded em.now map.now }
    requires edge_lt_edge_places { edge < edge_places }
    ensures { result ≡ path_of em.now map.now edge }
{
    path_at(
        em,
        loaded_embedding::start(map, edge),
        loaded_embedding::steps(map, edge),
    )
}

// The paths of `n` edges, the first of them edge `b`.
pub fn paths_of(em: &[u8], map: &[u16; MAP], b: usize, n: usize) -> [[u8; MAX_STEPS]; MAX_MEMBERS]
    requires paths_bounded { PathsBounded em.now map.now }
    requires n_le_max_members { n ≤ max_members }
    requires n_bound { b + n ≤ edge_places }
    ensures { PathsAt em.now map.now b n result }
{
    let mut paths = [[0u8; MAX_STEPS]; MAX_MEMBERS];
    for i in 0..n {
        paths[i] = edge_path(em, map, b + i);
    }
    paths
}
