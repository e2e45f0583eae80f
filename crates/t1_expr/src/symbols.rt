// The values of names.
ghost use Rattle.std.specs.Prelude.{◌≡◌, OnOk};
ghost use Rattle.t1_expr.specs.Symbols.{env_of, Defines};

use std::alloc::AllocError;
use std::collections::BTreeMap;

/// The value of a name, which is named by its bytes.
pub fn value_of(map: &BTreeMap<&[u8], u64>, name: &[u8]) -> Option<u64>
    ensures { result ≡ env_of map.now name.now }
{
    map.get(name).copied()
}

pub fn define<'a>(
    map: &mut BTreeMap<&'a [u8], u64>,
    name: &'a [u8],
    value: u64,
) -> Result<(), AllocError>
    ensures { OnOk result (Defines (env_of map.old) (env_of map.new) name.now value) }
{
    map.insert(name, value)?;
    Ok(())
}
