//! The machine of a source filter.
ghost use Rattle.std.specs.Prelude.{◌≡◌, ◌∷◌, [], Some, None};
ghost use Rattle.ff_stream.specs.declared.item.Lane.TheVariants.{Frames};
ghost use Rattle.ff_net.specs.Pasts.{start};
ghost use Rattle.ff_source.specs.laws.Left.{left as left_of};
ghost use Rattle.ff_source.specs.Sources.{CanGive, head_of};
ghost use Rattle.ff_node_demux.specs.gens.Generating.{gen_task};
ghost use Rattle.ff_node_demux.specs.laws.gens.Generators.{gen_out_lanes, gen_source, gen_fault, gen_stands};

use crate::gens::generator::Gen;
use ff_source::{GenSource, Made, sources_give_valid_streams};
use std::alloc::Global;

/// The machine of a source filter that gives this, the source of this number.
pub fn generator_of(alloc: Global, number: u32, made: Made) -> Gen<GenSource>
    requires { CanGive made }
    ensures fault { gen_fault result ≡ None }
    ensures source { gen_source result ≡ Some number }
    ensures lanes { gen_out_lanes result ≡ Frames (head_of made) ∷ [] }
    ensures stands { gen_stands left_of result (start (gen_task number made)) }
{
    let head = made.head();
    sources_give_valid_streams();
    let frames = GenSource {
        made,
        given: 0,
        alloc,
    };
    Gen::new(number, head, frames)
}
