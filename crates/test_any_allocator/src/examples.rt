//! An example of the bounds on a map's bytes, as the pages show it.
use fc_laws::{held_within, most_bytes, most_inner_nodes, most_nodes};
use fc_map::map::BTreeMap;
use std::test::Fail;

#[test]
fn bytes_of_maps(rt: HostRuntime) -> Result<(), Fail> {
    let alloc = rt.alloc();
    // example: most_bytes, most_nodes, most_inner_nodes, held_within
    assert_eq!(rt; (most_nodes(170), most_inner_nodes(170)), (25, 3));
    // Of numbers to numbers: 15 pairs of 16 bytes a node, and 16 places of 40 bytes an inner node.
    assert_eq!(rt; most_bytes(170, 15 * 16, 16 * 40), Some(25 * 240 + 3 * 640));
    let map: BTreeMap<u64, u64> = BTreeMap::new(alloc);
    held_within(&map); // brings the bounds into a proof
    // end
    Ok(())
}
