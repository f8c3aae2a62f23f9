//! The devices of the command line.
ghost use Rattle.std.specs.Prelude.{◌≡◌, ℕ, List, Option, IfNone, IfSome, IfOk, map};
ghost use Rattle.zr_script.specs.CommandLine.{IsDevice};
ghost use Rattle.zr_words.specs.Views.{device_of};
ghost use Rattle.zr_words.specs.Reading.{AreEach};

use std::alloc::Global;
use zr_base::NoMemory;
use zr_script::{is_path, parse_number};

/// The most bytes of a device that is made.
const MAX_SIZE: u64 = 137_438_953_472;

/// A device: the path of its file, and in bytes how large that is made where there is none.
#[derive(Clone, Copy)]
pub struct Device<'a> {
    pub path: &'a str,
    pub make: Option<u64>,
}

/// Reads a device: a path, and its size behind a colon where there is one. It takes no memory.
pub fn parse_device(word: &str) -> Option<Device>
    ensures none { IfNone result ((path : List ℕ) (make : Option ℕ) → IsDevice word.now path make → ⊥) }
    ensures some { IfSome result (λ device. IsDevice word.now device.path.now device.make) }
{
    let Some((path, digits)) = word.split_once(':') else {
        if is_path(word.as_bytes()) {
            return Some(Device {
                path: word,
                make: None,
            });
        }
        return None;
    };
    if !is_path(path.as_bytes()) {
        return None;
    }
    let Some(size) = parse_number(digits.as_bytes()) else {
        return None;
    };
    if size > MAX_SIZE {
        return None;
    }
    Some(Device {
        path,
        make: Some(size),
    })
}

/// Reads each word as a device. None where one is none.
pub fn parse_each<'a>(alloc: Global, words: &[&'a str]) -> Result<Option<Vec<Device<'a>>>, NoMemory>
    ensures none { IfOk result (λ found. IfNone found ((devs : List (List ℕ × Option ℕ)) → AreEach (map (λ word. word.now) words.now) devs → ⊥)) }
    ensures some { IfOk result (λ found. IfSome found (λ devices. AreEach (map (λ word. word.now) words.now) (map device_of devices.items))) }
{
    let mut devices = Vec::new(alloc);
    for word in words {
        let Some(device) = parse_device(word) else {
            return Ok(None);
        };
        devices.push(device)?;
    }
    Ok(Some(devices))
}
