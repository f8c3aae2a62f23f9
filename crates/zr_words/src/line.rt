//! The command line as it is read.
ghost use Rattle.std.specs.Prelude.{◌≡◌, false, IfOk, IsTrue, map};
ghost use Rattle.zr_script.specs.Words.{are_paths};
ghost use Rattle.zr_words.specs.Views.{path_of, line_of};
ghost use Rattle.zr_words.specs.Reading.{HasPaths, IsWhole};

use crate::device::Device;
use std::alloc::Global;
use zr_base::NoMemory;
use zr_script::are_paths;

/// The fewest devices on which a script is generated.
const MIN_DEVICES: usize = 3;

/// What the words say: each option where it is given, and the devices in order.
#[derive(Drop)]
pub struct CommandLine<'a> {
    /// The name of the chooser.
    pub policy: Option<&'a str>,
    /// The rounds behind each line, at most 1,000.
    pub auto: Option<u64>,
    /// The number of a generated script, and how many lines it has, 1 to 1,000,000.
    pub generate: Option<(u64, u32)>,
    /// 1 to 32 devices, at least three where a script is generated.
    pub devices: Vec<Device<'a>>,
}

impl CommandLine<'_> {
    /// Whether the line has 1 to 32 devices with different paths, and three where a script is generated.
    pub(crate) fn is_whole(&self, alloc: Global) -> Result<bool, NoMemory>
        requires paths { HasPaths (line_of self.now) }
        ensures whole { IfOk result (λ is. IsTrue is → IsWhole (line_of self.now)) }
        ensures other { IfOk result (λ is. is ≡ false → IsWhole (line_of self.now) → ⊥) }
    {
        if self.generate.is_some() && self.devices.len() < MIN_DEVICES {
            return Ok(false);
        }
        are_different(alloc, self.devices.as_slice())
    }
}

/// Whether these are 1 to 32 devices with different paths.
fn are_different(alloc: Global, devices: &[Device]) -> Result<bool, NoMemory>
    ensures { IfOk result (λ are. are ≡ are_paths (map path_of devices.now)) }
{
    let mut paths: Vec<&[u8]> = Vec::new(alloc);
    for device in devices {
        paths.push(device.path.as_bytes())?;
    }
    Ok(are_paths(paths.as_slice()))
}
