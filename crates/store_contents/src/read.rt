//! What all structures of a closed store hold.
ghost use Rattle.std.specs.Prelude.{◌≡◌};
ghost use Rattle.store_contents.specs.Contents.{KeysAreApart, AreContents};
ghost use Rattle.store_layout.specs.States.{IsFormed};

use crate::cells::{read_cells, read_pools};
use crate::maps::read_maps;
use crate::queues::{read_logs, read_queues};
use crate::room::ContentsRoom;
use cell_table::Contents;
use key_directory::KeyList;
use serial_terms::StoreState;

/// What the structures hold, by their cells and the keys of the maps. The room for it is there before, so it takes no memory.
pub fn read_contents(room: ContentsRoom, cells: &Contents, keys: &KeyList) -> StoreState
    requires formed { IsFormed room cells.now.values }
    requires regions { keys.now.capacities ≡ room.maps }
    requires apart { KeysAreApart keys.now }
    ensures { AreContents room cells.now.values keys.now result }
{
    let ContentsRoom {
        maps,
        queues,
        pools,
        logs,
        cells: plain,
    } = room;
    StoreState {
        maps: read_maps(cells, keys, maps),
        queues: read_queues(cells, queues),
        pools: read_pools(cells, pools),
        logs: read_logs(cells, logs),
        cells: read_cells(cells, plain),
    }
}
