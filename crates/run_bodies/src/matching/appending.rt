//! Findings are appended to the log, in a child.
ghost use Rattle.std.specs.Prelude.{◌≡◌, ◌<◌, length, [], ◌∷◌, All, IfErr, OnOk};
ghost use Rattle.serial_terms.specs.Ranges.{IsKept};
ghost use Rattle.run_bodies.specs.InChild.{StopsInChild};
ghost use Rattle.run_bodies.specs.Matching.{AppendsInChild};
ghost use Rattle.tx_nest.specs.Attempts.{IsInChild};
ghost use Rattle.tx_store.specs.Children.{view_of, HasMark};

use crate::gate::{Gate, Kind, Point};
use run_purpose::RunPurpose;
use tx_core::Stop;
use tx_store::StoreTx;

/// Appends the values to the log, in the order in which they stand.
pub(crate) fn append_all<G: Gate>(
    gate: &mut G,
    tx: &mut StoreTx<'_, RunPurpose<'_>>,
    values: &[u64],
) -> Result<(), Stop>
    requires child { IsInChild (view_of tx.old) }
    requires marked { HasMark tx.old }
    requires log { 0 < length tx.old.store.table.meaning.plan.logs }
    requires kept { All IsKept values.now }
    ensures appended { OnOk result (AppendsInChild values.now tx.old tx.new) }
    ensures stopped { IfErr result (StopsInChild tx.old tx.new) }
{
    for value in values {
        match tx.log_append_placed(0, *value) {
            Ok(_) => gate.at(Point::Called(Kind::AppendPlaced)),
            Err(stop) => return Err(stop),
        }
    }
    Ok(())
}
