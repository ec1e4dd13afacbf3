// Makes a device from a bay file and a program or an image.
ghost use Rattle.std.specs.Prelude.{◌≡◌, ◌≢◌, Ok, Err, IfOk, IfErr};
ghost use Rattle.bay_base.specs.Exact.{ExactOr};
ghost use Rattle.bay_config.specs.Bay.{bay_of};
ghost use Rattle.il_text.specs.Reading.{program_of};
ghost use Rattle.il_check.specs.Program.{Checked};
ghost use Rattle.il_image.specs.Decoding.{decoded_image};
ghost use Rattle.bay_load.specs.Loads.{IsCompiled, IsImageOf, LoadsImageFiles, MayLoadTo, checked_in, parsed_bay, load_of_bay};
ghost use Rattle.bay_device.specs.Accepts.{IsRight};
ghost use Rattle.bay_device.specs.Entries.{IsIdle};
ghost use Rattle.bay_device.specs.Load.{IsLoaded, LoadsAs, LoadsDevice, device_from};
ghost use Rattle.bay_device.specs.Meaning.{Runs};
ghost use Rattle.bay_device.specs.declared.fault.LoadFault.TheVariants.{OutOfMemory, Refused};

use crate::device::Device;
use crate::fault::LoadFault;
use bay_load::error::LoadError;
use bay_load::load::{Form, load_files};
use std::alloc::Global;

/// Makes the device of the octets of a bay file and of a program or an image, before its first
/// event. Returns the first error of the load, or `OutOfMemory` if an allocation fails.
pub fn load_device(
    alloc: Global,
    bay: &[u8],
    form: Form,
    program: &[u8],
) -> Result<Device, LoadError>
    ensures ok { IfOk result (LoadsDevice bay.now form program.now) }
    ensures refused { IfErr result (λ e. MayLoadTo bay.now form program.now (Err e)) }
    // The device is that of the bay that the file spells, and of the program's image, before its
    // first event: there is no selection, and no association is open.
    ensures loaded { IfOk result (IsLoaded (parsed_bay bay.now) (IsImageOf form program.now)) }
    ensures idle { IfOk result IsIdle }
{
    let loaded = load_files(alloc, bay, form, program)?;
    let device = Device::new(alloc, loaded)?;
    Ok(device)
}

/// Makes the device of a bay file and a program, before its first event. Returns the first fault:
/// of the bay file (50 to 55), then of the program's text (60 to 64), then of its checks (70 to
/// 79), then 85 if the image would be too long; or `OutOfMemory` if an allocation fails.
pub fn load(alloc: Global, bay: &str, logic: &str) -> Result<Device, LoadFault>
    ensures device { ExactOr OutOfMemory (λ device. device) result
        (device_from (load_of_bay (bay_of bay.now) (program_of logic.now))) }
    // A device results only if the first text is a bay file, and the second one spells a program
    // that is right with the points of the bay; such texts are refused only if an allocation fails,
    // or if the image would be too long.
    ensures accepted { IfOk result (λ _. IsRight bay.now logic.now) }
    ensures refused { IfErr result
        (λ e. e ≢ OutOfMemory → IsRight bay.now logic.now → e ≡ Refused 85 0) }
    // The device runs the program that the text spells.
    ensures runs { IfOk result
        (λ device. (c : Checked) × (checked_in (bay_of bay.now) (program_of logic.now) ≡ Ok c)
        × Runs c device) }
    // It is the device of the bay file and of the image to which the text is compiled, before its
    // first event: there is no selection, and no association is open.
    ensures loaded { IfOk result
        (IsLoaded (bay_of bay.now) (IsCompiled (program_of logic.now))) }
    ensures idle { IfOk result IsIdle }
{
    let device = load_device(alloc, bay.as_bytes(), Form::Logic, logic.as_bytes())?;
    Ok(device)
}

/// Makes the device of a bay file and the octets of an image, before its first event. Returns a
/// fault of the bay file (50 to 55), or else of the octets (80 to 83), or else of the image (90 to
/// 100); or `OutOfMemory` if an allocation fails.
pub fn load_image(alloc: Global, bay: &str, image: &[u8]) -> Result<Device, LoadFault>
    ensures ok { IfOk result
        (λ device. LoadsAs (LoadsImageFiles (bay_of bay.now) (decoded_image image.now)) (Ok device)) }
    ensures refused { IfErr result
        (λ e. e ≢ OutOfMemory
        → LoadsAs (LoadsImageFiles (bay_of bay.now) (decoded_image image.now)) (Err e)) }
    // It is the device of the bay file and of the image that the octets encode, before its first
    // event: there is no selection, and no association is open.
    ensures loaded { IfOk result
        (IsLoaded (bay_of bay.now) (λ _ program. decoded_image image.now ≡ Ok program)) }
    ensures idle { IfOk result IsIdle }
{
    let device = load_device(alloc, bay.as_bytes(), Form::Image, image)?;
    Ok(device)
}
