//! What burns from a vertex.

use crate::tables::square;
use dg_burn::{Burnt, burn};
use dg_chips::Wide;
use std::test::Fail;

// On the square with -2 0 3 0 the neighbours of the first vertex burn, and the last has three dollars for two edges.
#[test]
fn what_burns(rt: HostRuntime) -> Result<(), Fail> {
    let graph = *square(&[0, 0, 0, 0])?.graph();
    let (burnt, unburnt) = (3, 4);
    let order = [0, 1, 3, 0, 0, 0, 0, 0, 0, 0, 0, 0, 0, 0, 0, 0];
    let some = burn(&graph, 0, &Wide::new(&graph, &[-2, 0, 3, 0])?);
    assert!(rt;
        some == Burnt {
            order,
            burnt,
            unburnt
        }
    );
    let (burnt, unburnt) = (1, 14);
    let none = burn(&graph, 0, &Wide::new(&graph, &[-2, 1, 1, 1])?);
    assert!(rt;
        none == Burnt {
            order: [0; 16],
            burnt,
            unburnt
        }
    );
    let (burnt, unburnt) = (4, 0);
    let order = [0, 1, 3, 2, 0, 0, 0, 0, 0, 0, 0, 0, 0, 0, 0, 0];
    let all = burn(&graph, 0, &Wide::new(&graph, &[0, 0, 1, 0])?);
    assert!(rt;
        all == Burnt {
            order,
            burnt,
            unburnt
        }
    );
    Ok(())
}
