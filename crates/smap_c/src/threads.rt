//! A handle may go to another thread: each of these gives back its own, and promises that its type may cross.
ghost use Rattle.std.specs.Prelude.{◌≡◌};
ghost use Rattle.std.specs.Thread.{IsSend};
ghost use Rattle.smap_c.specs.Threads.{BuilderCrosses, BytesCross, MapCrosses, ScriptsCross};

use crate::handles::{SmapBuilder, SmapBytes, SmapMap, SmapScripts};

/// What the bound means.
fn crosses<T: Send + Drop>(it: T) -> T
    ensures same { result ≡ it }
    ensures sent { IsSend T.row }
{
    it
}

pub fn map_crosses(map: SmapMap) -> SmapMap
    ensures same { result ≡ map }
    ensures sent { MapCrosses }
{
    crosses(map)
}

pub fn bytes_cross(bytes: SmapBytes) -> SmapBytes
    ensures same { result ≡ bytes }
    ensures sent { BytesCross }
{
    crosses(bytes)
}

pub fn scripts_cross(scripts: SmapScripts) -> SmapScripts
    ensures same { result ≡ scripts }
    ensures sent { ScriptsCross }
{
    crosses(scripts)
}

pub fn builder_crosses(builder: SmapBuilder) -> SmapBuilder
    ensures same { result ≡ builder }
    ensures sent { BuilderCrosses }
{
    crosses(builder)
}
