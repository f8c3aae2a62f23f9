//! The desk over files, standard input and standard output.
//!
//! This is the trusted edge of the program: what a file holds is not told, and a disk is the open file with the size
//! that it had when it was attached. A read or write goes to its offset and loops until all bytes are there, since the
//! system may do a part of what it was asked; an end of file inside the range is a fault. A flush makes each attached
//! file durable. Each fault raises one of four counts.
//!
//! No contract can say what a file holds. What one can say is how much was moved: so beside the faults the desk counts
//! the bytes that the calls of the system answered, and the calls that take or make durable. A call of the desk that
//! answers Ok has raised its count by all that it was asked for, and a body that asks the system for less is not
//! proved. Each device has counts of its own, which stand beside its file and are raised where that is used: so a read,
//! write or flush of another device's file is not proved either. A read or write also tests that the system began where it
//! was asked to, and keeps that place. Nothing else reads these counts. All counts stand still at the end of `u64`.
//!
//! Nor can a contract say which file the system opened, or how. So one function alone asks the system to open a path, one
//! to give a file its size, and each answers what it asked for with what it got. The clauses lead from there up to
//! `attach`: the device that is kept has the path and the size of the call, was opened as it is where it was there and as
//! a new one where it was not, and a new file's folder was made durable, and no other.
ghost use Rattle.std.specs.Prelude.{◌≡◌, ◌<◌, ◌≤◌, ◌+◌, ◌-◌, ◌^◌, map, length, min, Some, OnOk, IfOk, IfSome};
ghost use Rattle.zr_shelf.specs.declared.desk.DeskErr.TheVariants.{Failed};
ghost use Rattle.zr_files.specs.Raised.{raised, CountsFault, CountsMissing};
ghost use Rattle.zr_files.specs.Openings.{options_for, IsThereOrMade};
ghost use Rattle.zr_files.specs.Paths.{folder_of};
ghost use Rattle.zr_files.specs.Devices.{AreSameFiles, no_traffic, is_synced};

use std::alloc::Global;
use std::fs::{self, File, OpenFile, OpenOptions};
use std::io::{ErrorKind, Read, Seek, SeekFrom, Write};
use std::path::Path;
use zr_shelf::{Desk, DeskErr, Shelf};

/// How the system is asked to open a path.
#[derive(Clone, Copy, Debug, PartialEq, Eq)]
pub enum Opening {
    /// A file that is there, as it is.
    There,
    /// A file that is not there yet.
    New,
    /// A folder.
    Folder,
}

/// What was moved of one device: bytes read of it and written to it, where the last read or write began, and how often it
/// was made durable.
#[derive(Clone, Copy)]
struct Traffic {
    read: u64,
    written: u64,
    began: u64,
    synced: u64,
}

/// An open device file: its bytes when it was attached, the path that it was opened by and how, the size in bytes that a
/// new one was to have, if the call had one, and what was moved of it.
#[derive(Drop)]
pub struct DeviceFile {
    pub size: u64,
    path: Vec<u8>,
    opening: Opening,
    make: Option<u64>,
    traffic: Traffic,
    file: File,
}

/// A file, and the path that the system was asked to open and how.
#[derive(Drop)]
struct Opened<'p> {
    path: &'p str,
    opening: Opening,
    file: File,
}

/// What makes a new file last: the size that it was given, and the folder that was made durable.
#[derive(Clone, Copy)]
struct Made<'p> {
    size: u64,
    folder: &'p str,
}

/// An open file and its bytes, and the size that was asked for if it were not there.
#[derive(Drop)]
struct Found<'p> {
    opened: Opened<'p>,
    size: u64,
    make: Option<u64>,
}

/// How much was moved beside the traffic of the devices: new files and their folders made durable, files that the system
/// was asked to open and did not have, bytes of the input and the calls that answered them, and bytes sent.
#[derive(Clone, Copy)]
struct Moved {
    synced: u64,
    missing: u64,
    taken: u64,
    takes: u64,
    given: u64,
}

/// Device files, standard input and standard output, with a count of the faults of each and of what was moved.
#[derive(Drop)]
pub struct FileDesk {
    rt: HostRuntime,
    devices: Vec<DeviceFile>,
    moved: Moved,
    disk_faults: u64,
    attach_faults: u64,
    input_faults: u64,
    output_faults: u64,
    ghost few: { length devices.items < 2 ^ 32 },
}

impl FileDesk {
    ghost use Rattle.std.specs.Prelude.{[]};
    ghost use Rattle.zr_files.specs.Desk.{faults_of};

    /// A desk with no device yet, of which nothing has failed and nothing was moved.
    pub fn new(rt: HostRuntime) -> FileDesk
        ensures none { result.devices.items ≡ [] }
        ensures faults { faults_of result ≡ record { disk = 0; attach = 0; input = 0; output = 0 } }
        ensures moved { result.moved ≡ record { synced = 0; missing = 0; taken = 0; takes = 0; given = 0 } }
    {
        let alloc: Global = rt.alloc();
        FileDesk {
            rt,
            devices: Vec::new(alloc),
            moved: Moved {
                synced: 0,
                missing: 0,
                taken: 0,
                takes: 0,
                given: 0,
            },
            disk_faults: 0,
            attach_faults: 0,
            input_faults: 0,
            output_faults: 0,
        }
    }
}

/// Counts a fault, and tells it.
fn fault(faults: &mut u64) -> DeskErr
    ensures counted { faults.new ≡ raised faults.old 1 }
    ensures never_falls { faults.old ≤ faults.new }
    ensures told { result ≡ Failed }
{
    *faults = faults.saturating_add(1);
    DeskErr::Failed
}

/// Fills `out` from the offset on, and counts its bytes. It answers where the system says that they begin.
fn read_at(
    file: &mut File,
    at: u64,
    out: &mut [u8],
    read: &mut u64,
    faults: &mut u64,
) -> Result<u64, DeskErr>
    ensures place { IfOk result (λ place. place ≡ at) }
    ensures moved { OnOk result (read.new ≡ raised read.old (length out.old)) }
    ensures faults { CountsFault result faults.old faults.new }
{
    let place = match file.seek(SeekFrom::Start(at)) {
        Ok(place) if place == at => place,
        _ => return Err(fault(faults)),
    };
    let before = *read;
    let mut done = 0;
    for _ in 0..u64::MAX {
        if done == out.len() {
            return Ok(place);
        }
        match file.read(&mut out[done..]) {
            Ok(0) => return Err(fault(faults)),
            Ok(count) => {
                done += count;
                *read = before.saturating_add(done as u64);
            }
            Err(error) if error.kind() == ErrorKind::Interrupted => {}
            Err(_) => return Err(fault(faults)),
        }
    }
    Err(fault(faults))
}

/// Sends or stores all the bytes, where the writer stands, and counts them.
fn write_whole(
    writer: &mut impl Write,
    bytes: &[u8],
    sent: &mut u64,
    faults: &mut u64,
) -> Result<(), DeskErr>
    ensures moved { OnOk result (sent.new ≡ raised sent.old (length bytes.now)) }
    ensures faults { CountsFault result faults.old faults.new }
{
    let before = *sent;
    let mut done = 0;
    for _ in 0..u64::MAX {
        if done == bytes.len() {
            return Ok(());
        }
        match writer.write(&bytes[done..]) {
            Ok(0) => return Err(fault(faults)),
            Ok(count) => {
                done += count;
                *sent = before.saturating_add(done as u64);
            }
            Err(error) if error.kind() == ErrorKind::Interrupted => {}
            Err(_) => return Err(fault(faults)),
        }
    }
    Err(fault(faults))
}

/// Writes the bytes from the offset on, and counts them. It answers where the system says that they begin.
fn write_at(
    file: &mut File,
    at: u64,
    bytes: &[u8],
    written: &mut u64,
    faults: &mut u64,
) -> Result<u64, DeskErr>
    ensures place { IfOk result (λ place. place ≡ at) }
    ensures moved { OnOk result (written.new ≡ raised written.old (length bytes.now)) }
    ensures faults { CountsFault result faults.old faults.new }
{
    let place = match file.seek(SeekFrom::Start(at)) {
        Ok(place) if place == at => place,
        _ => return Err(fault(faults)),
    };
    write_whole(file, bytes, written, faults)?;
    Ok(place)
}

/// Makes the bytes of a file durable, as fdatasync(2) does, and counts it. Its size goes with them where it changed; times do not.
fn sync_file(file: &File, synced: &mut u64, faults: &mut u64) -> Result<(), DeskErr>
    ensures moved { OnOk result (synced.new ≡ raised synced.old 1) }
    ensures faults { CountsFault result faults.old faults.new }
{
    if file.sync_data().is_err() {
        return Err(fault(faults));
    }
    *synced = synced.saturating_add(1);
    Ok(())
}

impl DeviceFile {
    ghost use Rattle.zr_files.specs.Devices.{IsSameFile, has_read, has_written, is_synced};

    /// Reads of this file, and counts it.
    fn read(&mut self, at: u64, out: &mut [u8], faults: &mut u64) -> Result<(), DeskErr>
        ensures moved { OnOk result (self.new.traffic ≡ has_read self.old.traffic at (length out.old)) }
        ensures same { IsSameFile self.old self.new }
        ensures faults { CountsFault result faults.old faults.new }
    {
        self.traffic.began = read_at(&mut self.file, at, out, &mut self.traffic.read, faults)?;
        Ok(())
    }

    /// Writes to this file, and counts it.
    fn write(&mut self, at: u64, bytes: &[u8], faults: &mut u64) -> Result<(), DeskErr>
        ensures moved { OnOk result (self.new.traffic ≡ has_written self.old.traffic at (length bytes.now)) }
        ensures same { IsSameFile self.old self.new }
        ensures faults { CountsFault result faults.old faults.new }
    {
        let written = &mut self.traffic.written;
        self.traffic.began = write_at(&mut self.file, at, bytes, written, faults)?;
        Ok(())
    }

    /// Makes this file durable, and counts it.
    fn sync(&mut self, faults: &mut u64) -> Result<(), DeskErr>
        ensures moved { OnOk result (self.new.traffic ≡ is_synced self.old.traffic) }
        ensures same { IsSameFile self.old self.new }
        ensures faults { CountsFault result faults.old faults.new }
    {
        sync_file(&self.file, &mut self.traffic.synced, faults)
    }
}

/// Makes every file durable, and counts that of each.
fn sync_each(devices: &mut [DeviceFile], faults: &mut u64) -> Result<(), DeskErr>
    ensures moved { OnOk result (map (λ f. f.traffic) devices.new ≡ map is_synced (map (λ f. f.traffic) devices.old)) }
    ensures same { AreSameFiles devices.old devices.new }
    ensures faults { CountsFault result faults.old faults.new }
{
    for device in devices.iter_mut() {
        device.sync(faults)?;
    }
    Ok(())
}

/// What the system is asked for: a file to read and write, or a folder to read. Only a new file is made, and none is cut.
fn options_of(opening: Opening) -> OpenOptions
    ensures { result ≡ options_for opening }
{
    let mut options = OpenOptions::new();
    options.read(true);
    options.write(opening != Opening::Folder);
    options.create_new(opening == Opening::New);
    options
}

/// Asks the system to open a path. Nothing else opens a file. It answers None, and counts it, where the system says that
/// there is no such file. Any other failure is a fault.
fn open_as<'p>(
    rt: &HostRuntime,
    path: &'p str,
    opening: Opening,
    missing: &mut u64,
    faults: &mut u64,
) -> Result<Option<Opened<'p>>, DeskErr>
    ensures path { IfOk result (λ found. IfSome found (λ opened. opened.path.now ≡ path.now)) }
    ensures opening { IfOk result (λ found. IfSome found (λ opened. opened.opening ≡ opening)) }
    ensures missing { CountsMissing result missing.old missing.new }
    ensures faults { CountsFault result faults.old faults.new }
{
    match options_of(opening).open(rt, path) {
        Ok(file) => Ok(Some(Opened {
            path,
            opening,
            file,
        })),
        Err(error) if error.kind() == ErrorKind::NotFound => {
            *missing = missing.saturating_add(1);
            Ok(None)
        }
        Err(_) => Err(fault(faults)),
    }
}

/// Asks the system to open a path that it must have, or be able to make. A missing file is a fault too.
fn open_or_fail<'p>(
    rt: &HostRuntime,
    path: &'p str,
    opening: Opening,
    faults: &mut u64,
) -> Result<Opened<'p>, DeskErr>
    ensures path { IfOk result (λ opened. opened.path.now ≡ path.now) }
    ensures opening { IfOk result (λ opened. opened.opening ≡ opening) }
    ensures faults { CountsFault result faults.old faults.new }
{
    match open_as(rt, path, opening, &mut 0, faults)? {
        Some(opened) => Ok(opened),
        None => Err(fault(faults)),
    }
}

/// Gives a file so many bytes, makes it durable and counts it. It answers how many were asked for. Nothing else sets the
/// size of a file.
fn set_size(file: &File, size: u64, synced: &mut u64, faults: &mut u64) -> Result<u64, DeskErr>
    ensures size { IfOk result (λ given. given ≡ size) }
    ensures moved { OnOk result (synced.new ≡ raised synced.old 1) }
    ensures faults { CountsFault result faults.old faults.new }
{
    if file.set_len(size).is_err() {
        return Err(fault(faults));
    }
    sync_file(file, synced, faults)?;
    Ok(size)
}

/// The folder of a path: the working folder where it names none.
fn folder_at(path: &str) -> &str
    ensures { result.now ≡ folder_of path.now }
{
    match Path::new(path).parent() {
        Some(parent) if !parent.as_str().is_empty() => parent.as_str(),
        _ => ".",
    }
}

/// Makes the entry of a path in its folder durable, and answers the folder. It is opened for reading as a file is, and
/// synced through that handle.
fn sync_folder<'p>(
    rt: &HostRuntime,
    path: &'p str,
    synced: &mut u64,
    faults: &mut u64,
) -> Result<&'p str, DeskErr>
    ensures folder { IfOk result (λ folder. folder.now ≡ folder_of path.now) }
    ensures moved { OnOk result (synced.new ≡ raised synced.old 1) }
    ensures faults { CountsFault result faults.old faults.new }
{
    let handle = open_or_fail(rt, folder_at(path), Opening::Folder, faults)?;
    sync_file(&handle.file, synced, faults)?;
    Ok(handle.path)
}

/// Makes a file of that many zero bytes, and makes it and its entry last.
fn fill_new<'p>(
    rt: &HostRuntime,
    new: &Opened<'p>,
    size: u64,
    synced: &mut u64,
    faults: &mut u64,
) -> Result<Made<'p>, DeskErr>
    ensures size { IfOk result (λ made. made.size ≡ size) }
    ensures folder { IfOk result (λ made. made.folder.now ≡ folder_of new.now.path.now) }
    ensures moved { OnOk result (synced.new ≡ raised synced.old 2) }
    ensures faults { CountsFault result faults.old faults.new }
{
    let size = set_size(&new.file, size, synced, faults)?;
    let folder = sync_folder(rt, new.path, synced, faults)?;
    Ok(Made { size, folder })
}

/// Makes a file of that many zero bytes, or leaves none.
fn make_new<'p>(
    rt: &HostRuntime,
    path: &'p str,
    size: u64,
    synced: &mut u64,
    faults: &mut u64,
) -> Result<(Opened<'p>, Made<'p>), DeskErr>
    ensures path { IfOk result (λ new. new.0.path.now ≡ path.now) }
    ensures opening { IfOk result (λ new. new.0.opening ≡ Opening.New) }
    ensures size { IfOk result (λ new. new.1.size ≡ size) }
    ensures folder { IfOk result (λ new. new.1.folder.now ≡ folder_of path.now) }
    ensures moved { OnOk result (synced.new ≡ raised synced.old 2) }
    ensures faults { CountsFault result faults.old faults.new }
{
    let new = open_or_fail(rt, path, Opening::New, faults)?;
    match fill_new(rt, &new, size, synced, faults) {
        Ok(made) => Ok((new, made)),
        Err(error) => {
            let _ = fs::remove_file(rt, path);
            Err(error)
        }
    }
}

/// Opens a file as it is. Where the system has none and a size is given, makes one of that many zero bytes.
fn open_or_make<'p>(
    rt: &HostRuntime,
    path: &'p str,
    make: Option<u64>,
    missing: &mut u64,
    synced: &mut u64,
    faults: &mut u64,
) -> Result<Found<'p>, DeskErr>
    ensures path { IfOk result (λ found. found.opened.path.now ≡ path.now) }
    ensures make { IfOk result (λ found. found.make ≡ make) }
    ensures made { IfOk result (λ found. IsThereOrMade found.opened.opening make missing.old missing.new synced.old synced.new) }
    ensures never_falls { missing.old ≤ missing.new }
    ensures faults { CountsFault result faults.old faults.new }
{
    let there = open_as(rt, path, Opening::There, missing, faults)?;
    let (opened, make) = match (there, make) {
        (Some(opened), make) => (opened, make),
        (None, Some(size)) => {
            let (opened, made) = make_new(rt, path, size, synced, faults)?;
            (opened, Some(made.size))
        }
        (None, None) => return Err(fault(faults)),
    };
    let Ok(metadata) = opened.file.metadata() else {
        return Err(fault(faults));
    };
    Ok(Found {
        size: metadata.len(),
        opened,
        make,
    })
}

/// The device of a file that was found at that path.
fn device_of(found: Found<'_>, path: Vec<u8>) -> DeviceFile
    requires path { path.items ≡ found.opened.path.now }
    ensures path { result.path.items ≡ found.entry.opened.path.now }
    ensures opening { result.opening ≡ found.entry.opened.opening }
    ensures make { result.make ≡ found.entry.make }
    ensures size { result.size ≡ found.entry.size }
    ensures traffic { result.traffic ≡ no_traffic }
{
    DeviceFile {
        size: found.size,
        path,
        opening: found.opened.opening,
        make: found.make,
        traffic: Traffic {
            read: 0,
            written: 0,
            began: 0,
            synced: 0,
        },
        file: found.opened.file,
    }
}

impl Shelf for FileDesk {
    ghost use Rattle.std.specs.Prelude.{[], IsErrOf, slice_index};
    ghost use Rattle.zr_base.specs.Counts.{HasRisen};
    ghost use Rattle.zr_shelf.specs.Counts.{Counts, NoneFell};
    ghost use Rattle.zr_shelf.specs.declared.desk.DeskErr.TheVariants.{NoMemory};
    ghost use Rattle.zr_files.specs.Devices.{ChangesOne, has_read, has_written};
    ghost use Rattle.zr_files.specs.Desk.{sizes_of, faults_of, traffic_of};

    ghost sizes = { sizes_of };

    ghost counts = { faults_of };

    ghost tells = { λ d. ⊥ };

    ghost moment = { λ d. 0 };

    ghost world = { λ d. record { now = record { paths = []; makes = []; durable = []; writes = []; seen = []; left = []; sent = [] }; past = [] } };

    ghost sound = { λ d told. absurd told };

    fn slots(&self) -> u32 {
        self.devices.len() as u32
    }

    fn size(&self, slot: u32) -> u64 {
        self.devices[slot as usize].size
    }

    fn read(&mut self, slot: u32, at: u64, out: &mut [u8]) -> Result<(), DeskErr>
        requires exists { slot < length (sizes_of self.old) }
        requires fits { at + length out.old ≤ slice_index (sizes_of self.old) slot }
        ensures sizes { sizes_of self.new ≡ sizes_of self.old }
        ensures none_fell { NoneFell (faults_of self.old) (faults_of self.new) }
        ensures failed { IsErrOf result Failed → HasRisen (faults_of self.old).disk (faults_of self.new).disk }
        ensures memory { IsErrOf result NoMemory → ⊥ }
        // Just this device was read of, from there on.
        ensures moved { OnOk result (ChangesOne (λ traffic. has_read traffic at (length out.old)) slot (traffic_of self.old) (traffic_of self.new)) }
        ensures same { AreSameFiles self.old.devices.items self.new.devices.items }
    {
        self.devices[slot as usize].read(at, out, &mut self.disk_faults)
    }

    fn write(&mut self, slot: u32, at: u64, bytes: &[u8]) -> Result<(), DeskErr>
        requires exists { slot < length (sizes_of self.old) }
        requires fits { at + length bytes.now ≤ slice_index (sizes_of self.old) slot }
        ensures sizes { sizes_of self.new ≡ sizes_of self.old }
        ensures none_fell { NoneFell (faults_of self.old) (faults_of self.new) }
        ensures failed { IsErrOf result Failed → HasRisen (faults_of self.old).disk (faults_of self.new).disk }
        ensures memory { IsErrOf result NoMemory → ⊥ }
        // Just this device was written to, from there on.
        ensures moved { OnOk result (ChangesOne (λ traffic. has_written traffic at (length bytes.now)) slot (traffic_of self.old) (traffic_of self.new)) }
        ensures same { AreSameFiles self.old.devices.items self.new.devices.items }
    {
        self.devices[slot as usize].write(at, bytes, &mut self.disk_faults)
    }

    fn flush(&mut self) -> Result<(), DeskErr>
        ensures sizes { sizes_of self.new ≡ sizes_of self.old }
        ensures none_fell { NoneFell (faults_of self.old) (faults_of self.new) }
        ensures failed { IsErrOf result Failed → HasRisen (faults_of self.old).disk (faults_of self.new).disk }
        ensures memory { IsErrOf result NoMemory → ⊥ }
        // Each device was made durable.
        ensures moved { OnOk result (traffic_of self.new ≡ map is_synced (traffic_of self.old)) }
        ensures same { AreSameFiles self.old.devices.items self.new.devices.items }
    {
        sync_each(&mut self.devices, &mut self.disk_faults)
    }
}

impl Desk for FileDesk {
    ghost use Rattle.std.specs.Prelude.{ℕ, ◌++◌, ◌∷◌, [], IfOk, OnErr, IsErrOf};
    ghost use Rattle.zr_base.specs.Counts.{HasRisen};
    ghost use Rattle.zr_shelf.specs.Counts.{NoneFell};
    ghost use Rattle.zr_shelf.specs.declared.desk.DeskErr.TheVariants.{NoMemory};
    ghost use Rattle.zr_files.specs.Desk.{sizes_of, faults_of, paths_of, makes_of, openings_of, traffic_of};
    ghost use Rattle.zr_files.specs.declared.file_desk.Opening.{Opening};

    fn attach(&mut self, path: &str, make: Option<u64>) -> Result<u32, DeskErr>
        ensures slot { IfOk result (λ slot. slot ≡ length (sizes_of self.old)) }
        ensures sizes { IfOk result (λ slot. (size : ℕ) × (sizes_of self.new ≡ sizes_of self.old ++ size ∷ [])) }
        ensures err { OnErr result (sizes_of self.new ≡ sizes_of self.old) }
        ensures none_fell { NoneFell (faults_of self.old) (faults_of self.new) }
        ensures failed { IsErrOf result Failed → HasRisen (faults_of self.old).attach (faults_of self.new).attach }
        // What is kept was opened by the path of the call, and by its size where there was no file.
        ensures paths { OnOk result (paths_of self.new ≡ paths_of self.old ++ path.now ∷ []) }
        ensures makes { OnOk result (makes_of self.new ≡ makes_of self.old ++ make ∷ []) }
        // Nothing was moved of it yet, and nothing more of the others.
        ensures traffic { OnOk result (traffic_of self.new ≡ traffic_of self.old ++ no_traffic ∷ []) }
        // A file that was there is opened as it is, and not made.
        ensures made { OnOk result ((opening : Opening) × (openings_of self.new ≡ openings_of self.old ++ opening ∷ []) × IsThereOrMade opening make self.old.moved.missing self.new.moved.missing self.old.moved.synced self.new.moved.synced) }
    {
        let slot = self.slots();
        if slot == u32::MAX {
            return Err(DeskErr::NoMemory);
        }
        self.devices.reserve(1)?;
        let kept = path.as_bytes().to_vec(self.rt.alloc())?;
        let found = open_or_make(
            &self.rt,
            path,
            make,
            &mut self.moved.missing,
            &mut self.moved.synced,
            &mut self.attach_faults,
        )?;
        self.devices.push_reserved(device_of(found, kept));
        Ok(slot)
    }

    fn take(&mut self, out: &mut [u8]) -> Result<usize, DeskErr>
        ensures count { IfOk result (λ n. n ≤ length out.old) }
        ensures sizes { sizes_of self.new ≡ sizes_of self.old }
        ensures none_fell { NoneFell (faults_of self.old) (faults_of self.new) }
        ensures failed { IsErrOf result Failed → HasRisen (faults_of self.old).input (faults_of self.new).input }
        ensures memory { IsErrOf result NoMemory → ⊥ }
        ensures moved { IfOk result (λ n. self.new.moved.taken ≡ raised self.old.moved.taken n) }
        ensures asked { OnOk result (self.new.moved.takes ≡ raised self.old.moved.takes 1) }
    {
        let Ok(count) = self.rt.stdin().read(out) else {
            return Err(fault(&mut self.input_faults));
        };
        self.moved.takes = self.moved.takes.saturating_add(1);
        self.moved.taken = self.moved.taken.saturating_add(count as u64);
        Ok(count)
    }

    fn give(&mut self, bytes: &[u8]) -> Result<(), DeskErr>
        ensures sizes { sizes_of self.new ≡ sizes_of self.old }
        ensures none_fell { NoneFell (faults_of self.old) (faults_of self.new) }
        ensures failed { IsErrOf result Failed → HasRisen (faults_of self.old).output (faults_of self.new).output }
        ensures memory { IsErrOf result NoMemory → ⊥ }
        ensures moved { OnOk result (self.new.moved.given ≡ raised self.old.moved.given (length bytes.now)) }
    {
        write_whole(
            &mut self.rt.stdout(),
            bytes,
            &mut self.moved.given,
            &mut self.output_faults,
        )
    }
}

#[cfg(test)]
mod tests {
    use super::*;
    use std::test::Fail;

    const PATH: &str = "device";

    // The four bytes at a place, where they are read.
    fn four_at(desk: &mut FileDesk, at: u64) -> Option<[u8; 4]> {
        let mut out = [0u8; 4];
        if desk.slots() != 1 || at > 8 || desk.size(0) < at + 4 {
            return None;
        }
        match desk.read(0, at, &mut out) {
            Ok(()) => Some(out),
            Err(_) => None,
        }
    }

    // Writes four bytes at 4 and flushes.
    fn store(desk: &mut FileDesk) -> Result<(), Fail> {
        if desk.slots() != 1 || desk.size(0) != 12 {
            return Err(Fail::new("not the file that was made"));
        }
        if desk.write(0, 4, b"zpol").is_err() || desk.flush().is_err() {
            return Err(Fail::new("not stored"));
        }
        Ok(())
    }

    #[test]
    fn a_file_keeps_what_was_flushed(rt: HostRuntime) -> Result<(), Fail> {
        let _ = fs::remove_file(&rt, PATH);
        let mut desk = FileDesk::new(rt);
        assert!(rt; desk.attach(PATH, None) == Err(DeskErr::Failed));
        assert_eq!(rt; desk.attach_faults, 1);
        assert_eq!(rt; (desk.moved.missing, desk.moved.synced), (1, 0));
        assert!(rt; desk.attach(PATH, Some(12)) == Ok(0));
        assert_eq!(rt; (desk.moved.missing, desk.moved.synced), (2, 2));
        assert_eq!(rt; four_at(&mut desk, 8), Some([0, 0, 0, 0]));
        store(&mut desk)?;
        drop(desk);

        let mut desk = FileDesk::new(rt);
        assert!(rt; desk.attach(PATH, Some(4)) == Ok(0), "taken as it is");
        assert_eq!(rt; (desk.moved.missing, desk.moved.synced), (0, 0));
        assert_eq!(rt; desk.size(0), 12);
        assert_eq!(rt; four_at(&mut desk, 4), Some(*b"zpol"));
        fs::write(&rt, PATH, "short")?;
        assert_eq!(rt;
            four_at(&mut desk, 4),
            None,
            "the end of the file is in the range"
        );
        assert_eq!(rt; desk.disk_faults, 1);
        fs::remove_file(&rt, PATH)?;
        Ok(())
    }
}
