//! Files of the host, written, read and replaced.

/// The host's files are written and read.
pub const HOST: &str = "
host write rezkit-test-of-a-host-file \x00\x01 => Done
host read rezkit-test-of-a-host-file => \x00\x01
files remove rezkit-test-of-a-host-file =>\x20
host read rezkit-test-of-a-host-file => Missing
host faults  => 0 0
host write no-such-folder/file  => Failed
host faults  => 0 1
";

/// Where no file can stand, none is read: at a folder, through a file, at a name or a path that is too long, and at one
/// with a zero byte.
pub const NOWHERE: &str = "
files write rezkit-test-of-a-place a file =>\x20
host read . => Missing
host read / => Missing
host read  => Missing
host read rezkit-test-of-a-place/ => Missing
host read rezkit-test-of-a-place/file => Missing
host read rezkit-test-of-a-place/a/file => Missing
host read «n×255» => Missing
host read «n×256» => Missing
host read «n×256»/file => Missing
host read «./×2047»f => Missing
host read «./×2048» => Missing
host read «./×40000»f => Missing
host read rezkit-test-of-a-place\x00 => Missing
host read \x00 => Missing
host read rezkit-test-of-a-place => a file
host faults  => 0 0
files remove rezkit-test-of-a-place =>\x20
files link rezkit-test-of-a-loop rezkit-test-of-a-loop =>\x20
host read rezkit-test-of-a-loop => Failed
host faults  => 1 0
files remove rezkit-test-of-a-loop =>\x20
";

/// A call that fails leaves no new file, so that the folder can be removed. The calls are: metadata,
/// opening and reading the limits, creation, four writes, sync, rename. After them the folder is opened and synced: where
/// the host does neither, the file stands, and where the sync fails in another way, it stands too, and that is told. Where
/// the host doesn't tell the limits, the file is written.
pub const NEW: &str = "
files make-folder rezkit-test-of-a-new-file =>\x20
failing 1 full write rezkit-test-of-a-new-file/f newer bytes => Failed 0 1
files remove-folder rezkit-test-of-a-new-file =>\x20
files make-folder rezkit-test-of-a-new-file =>\x20
failing 2 full write rezkit-test-of-a-new-file/f newer bytes => Done 0 0
files read rezkit-test-of-a-new-file/f => newer bytes
files remove rezkit-test-of-a-new-file/f =>\x20
files remove-folder rezkit-test-of-a-new-file =>\x20
files make-folder rezkit-test-of-a-new-file =>\x20
failing 3 full write rezkit-test-of-a-new-file/f newer bytes => Done 0 0
files read rezkit-test-of-a-new-file/f => newer bytes
files remove rezkit-test-of-a-new-file/f =>\x20
files remove-folder rezkit-test-of-a-new-file =>\x20
files make-folder rezkit-test-of-a-new-file =>\x20
failing 4 full write rezkit-test-of-a-new-file/f newer bytes => Failed 0 1
files remove-folder rezkit-test-of-a-new-file =>\x20
files make-folder rezkit-test-of-a-new-file =>\x20
failing 5 full write rezkit-test-of-a-new-file/f newer bytes => Failed 0 1
files remove-folder rezkit-test-of-a-new-file =>\x20
files make-folder rezkit-test-of-a-new-file =>\x20
failing 6 full write rezkit-test-of-a-new-file/f newer bytes => Failed 0 1
files remove-folder rezkit-test-of-a-new-file =>\x20
files make-folder rezkit-test-of-a-new-file =>\x20
failing 7 full write rezkit-test-of-a-new-file/f newer bytes => Failed 0 1
files remove-folder rezkit-test-of-a-new-file =>\x20
files make-folder rezkit-test-of-a-new-file =>\x20
failing 8 full write rezkit-test-of-a-new-file/f newer bytes => Failed 0 1
files remove-folder rezkit-test-of-a-new-file =>\x20
files make-folder rezkit-test-of-a-new-file =>\x20
failing 9 full write rezkit-test-of-a-new-file/f newer bytes => Failed 0 1
files remove-folder rezkit-test-of-a-new-file =>\x20
files make-folder rezkit-test-of-a-new-file =>\x20
failing 10 full write rezkit-test-of-a-new-file/f newer bytes => Failed 0 1
files remove-folder rezkit-test-of-a-new-file =>\x20
files make-folder rezkit-test-of-a-new-file =>\x20
failing 11 denied write rezkit-test-of-a-new-file/f newer bytes => Done 0 0
files read rezkit-test-of-a-new-file/f => newer bytes
files remove rezkit-test-of-a-new-file/f =>\x20
failing 12 unable write rezkit-test-of-a-new-file/f newer bytes => Done 0 0
files read rezkit-test-of-a-new-file/f => newer bytes
files remove rezkit-test-of-a-new-file/f =>\x20
failing 12 full write rezkit-test-of-a-new-file/f newer bytes => Failed 0 1
files read rezkit-test-of-a-new-file/f => newer bytes
files remove rezkit-test-of-a-new-file/f =>\x20
failing 13 full write rezkit-test-of-a-new-file/f newer bytes => Done 0 0
files read rezkit-test-of-a-new-file/f => newer bytes
files remove rezkit-test-of-a-new-file/f =>\x20
files remove-folder rezkit-test-of-a-new-file =>\x20
";

/// A call that fails leaves the old file, and no other. The calls are: metadata, opening for writing, opening
/// and reading the limits, creation, permissions, four writes, sync, rename. Then the folder is opened and synced.
pub const OLD: &str = "
files make-folder rezkit-test-of-an-old-file =>\x20
files write rezkit-test-of-an-old-file/f old bytes =>\x20
failing 1 full write rezkit-test-of-an-old-file/f newer bytes => Failed 0 1
files read rezkit-test-of-an-old-file/f => old bytes
failing 2 full write rezkit-test-of-an-old-file/f newer bytes => Failed 0 1
files read rezkit-test-of-an-old-file/f => old bytes
failing 3 full write rezkit-test-of-an-old-file/f new bytes => Done 0 0
files read rezkit-test-of-an-old-file/f => new bytes
failing 4 full write rezkit-test-of-an-old-file/f old bytes => Done 0 0
files read rezkit-test-of-an-old-file/f => old bytes
failing 5 full write rezkit-test-of-an-old-file/f newer bytes => Failed 0 1
files read rezkit-test-of-an-old-file/f => old bytes
failing 6 full write rezkit-test-of-an-old-file/f newer bytes => Failed 0 1
files read rezkit-test-of-an-old-file/f => old bytes
failing 7 full write rezkit-test-of-an-old-file/f newer bytes => Failed 0 1
files read rezkit-test-of-an-old-file/f => old bytes
failing 8 full write rezkit-test-of-an-old-file/f newer bytes => Failed 0 1
files read rezkit-test-of-an-old-file/f => old bytes
failing 9 full write rezkit-test-of-an-old-file/f newer bytes => Failed 0 1
files read rezkit-test-of-an-old-file/f => old bytes
failing 10 full write rezkit-test-of-an-old-file/f newer bytes => Failed 0 1
files read rezkit-test-of-an-old-file/f => old bytes
failing 11 full write rezkit-test-of-an-old-file/f newer bytes => Failed 0 1
files read rezkit-test-of-an-old-file/f => old bytes
failing 12 full write rezkit-test-of-an-old-file/f newer bytes => Failed 0 1
files read rezkit-test-of-an-old-file/f => old bytes
failing 13 full write rezkit-test-of-an-old-file/f newer bytes => Done 0 0
files read rezkit-test-of-an-old-file/f => newer bytes
failing 14 full write rezkit-test-of-an-old-file/f newest bytes => Failed 0 1
files read rezkit-test-of-an-old-file/f => newest bytes
failing 15 full write rezkit-test-of-an-old-file/f newer bytes => Done 0 0
files read rezkit-test-of-an-old-file/f => newer bytes
files remove rezkit-test-of-an-old-file/f =>\x20
files remove-folder rezkit-test-of-an-old-file =>\x20
";

/// A read that is interrupted is taken again. The calls are: opening, metadata, a read, and the read that finds the end.
pub const READS: &str = "
files write rezkit-test-of-a-read all bytes =>\x20
failing 1 denied read rezkit-test-of-a-read => Failed 1 0
failing 2 denied read rezkit-test-of-a-read => Failed 1 0
failing 3 denied read rezkit-test-of-a-read => Failed 1 0
failing 3 interrupted read rezkit-test-of-a-read => all bytes 0 0
failing 4 denied read rezkit-test-of-a-read => Failed 1 0
failing 4 interrupted read rezkit-test-of-a-read => all bytes 0 0
failing 5 denied read rezkit-test-of-a-read => all bytes 0 0
files remove rezkit-test-of-a-read =>\x20
";

/// The files of others that have the names of temporary ones are left, and as many as there are hinder no write.
pub const LEFT: &str = "
files make-folder rezkit-test-of-what-is-left =>\x20
files leave 300 rezkit-test-of-what-is-left =>\x20
host write rezkit-test-of-what-is-left/f new => Done
files read rezkit-test-of-what-is-left/f => new
files read rezkit-test-of-what-is-left/.rezkit-299 => another's
files exists rezkit-test-of-what-is-left/.rezkit-300 => false
host faults  => 0 0
files take 300 rezkit-test-of-what-is-left =>\x20
files remove rezkit-test-of-what-is-left/f =>\x20
files remove-folder rezkit-test-of-what-is-left =>\x20
";

/// A file that is replaced keeps its permissions, and the file of another that has the name of a temporary one is left.
pub const MODES: &str = "
files make-folder rezkit-test-of-permissions =>\x20
files write rezkit-test-of-permissions/.rezkit-0 another's =>\x20
host write rezkit-test-of-permissions/f first => Done
files allow 640 rezkit-test-of-permissions/f =>\x20
rewrite rezkit-test-of-permissions/f second => as the host lets it
files read rezkit-test-of-permissions/f => second
files mode rezkit-test-of-permissions/f => 640
files allow 755 rezkit-test-of-permissions/f =>\x20
rewrite rezkit-test-of-permissions/f second => as the host lets it
files read rezkit-test-of-permissions/f => second
files mode rezkit-test-of-permissions/f => 755
files allow 444 rezkit-test-of-permissions/f =>\x20
rewrite rezkit-test-of-permissions/f second => as the host lets it
files read rezkit-test-of-permissions/f => second
files mode rezkit-test-of-permissions/f => 444
files read rezkit-test-of-permissions/.rezkit-0 => another's
files remove rezkit-test-of-permissions/.rezkit-0 =>\x20
files remove rezkit-test-of-permissions/f =>\x20
files remove-folder rezkit-test-of-permissions =>\x20
";

/// Links and devices are written in place. Folders, and names too long, are refused: the host takes this path, but not
/// that of a temporary file beside it.
pub const PLACES: &str = "
files write rezkit-test-of-a-target a longer old one =>\x20
files link rezkit-test-of-a-target rezkit-test-of-a-link =>\x20
host write rezkit-test-of-a-link new => Done
files is-link rezkit-test-of-a-link => true
files read rezkit-test-of-a-target => new
host write /dev/null new => Done
files remove rezkit-test-of-a-link =>\x20
files remove rezkit-test-of-a-target =>\x20
host faults  => 0 0
files make-folder rezkit-test-of-a-folder =>\x20
host write rezkit-test-of-a-folder new => Failed
files remove-folder rezkit-test-of-a-folder =>\x20
host write «./×2044»f new => Failed
host faults  => 0 2
files exists «./×2044»f => false
";
