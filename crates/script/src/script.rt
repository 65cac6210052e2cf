ghost use Rattle.script.specs.Sound.{LabelsShort, LabelsApart, StartsFit, ActsFit};
ghost use Rattle.script.specs.Views.{held};

use crate::tables::Tables;

mod methods;

/// A script: labels, starting contents and lines, with what each script keeps to.
#[derive(Drop)]
pub struct Script<'t> {
    tables: Tables<'t>,
    ghost short: { LabelsShort (held tables) },
    ghost apart: { LabelsApart (held tables) },
    ghost starts: { StartsFit (held tables) },
    ghost acts: { ActsFit (held tables) },
}
