//! Words of OpenACC that scripts do not have, and the advice for each. On each line stand words with blanks between them,
//! and behind a colon the advice where one of them stands in a line at fault.

/// The lists, what stands before their advice, and whether they are for the first word of a line alone.
pub static LISTS: &[(&str, &str, bool)] = &[
    ("a script has directives: ", ROUTINES, true),
    ("a script asks: ", QUESTIONS, true),
    ("", WORDS, false),
];

/// The routines of OpenACC 3.3, section 3.2, that move data, and the directives that do the same.
const ROUTINES: &str = "\
acc_copyin: enter data copyin(REF)
acc_copyin_async: enter data copyin(REF) async(QUEUE)
acc_create: enter data create(REF)
acc_create_async: enter data create(REF) async(QUEUE)
acc_copyout: exit data copyout(REF)
acc_copyout_async: exit data copyout(REF) async(QUEUE)
acc_copyout_finalize: exit data copyout(REF) finalize
acc_delete: exit data delete(REF)
acc_delete_async: exit data delete(REF) async(QUEUE)
acc_delete_finalize: exit data delete(REF) finalize
acc_update_device: update device(REF)
acc_update_device_async: update device(REF) async(QUEUE)
acc_update_self: update self(REF)
acc_update_self_async: update self(REF) async(QUEUE)
acc_attach acc_attach_async: enter data attach(PLACE)
acc_detach acc_detach_async: exit data detach(PLACE)
acc_detach_finalize: exit data detach(PLACE) finalize
acc_set_device_num: set device_num(N)
acc_wait: wait(QUEUE)
acc_wait_all: wait
";

/// The routines that ask, and the statements that do the same.
const QUESTIONS: &str = "\
acc_is_present: present REF
acc_deviceptr: address PLACE
";

/// Words of directives that stand elsewhere in scripts, or not at all.
const WORDS: &str = "\
pragma: the directive stands alone on its line, without #pragma acc
acc: the directive stands alone on its line, without acc
copy: copy stands in data; enter data has copyin, and exit data has copyout
copyout: copyout stands in data and in exit data
copyin: copyin stands in data and in enter data
delete: delete stands in exit data
create: create stands in data and in enter data
present: present stands in data
no_create: no_create stands in data
finalize: finalize stands in exit data
if_present: if_present stands in update
async: async stands in enter data, exit data and update; the copies of data are made at once
via: via stands behind a REF of data, enter data and exit data
parallel kernels serial: a script has four kernels in place of compute constructs: kernel add 1 REF
loop: a script has four kernels in place of loops: kernel add 1 REF
host_data use_device: a script has no host_data; address PLACE prints a device address
declare: a script has no declare: write enter data where the program begins
deviceptr: a script has no device pointers of its own: map the array in place of that
device_resident: a script has no declare: write enter data create(REF)
link: a script has no declare: write enter data copyin(REF)
if: a script has no conditions: leave the line out where the condition is false
self: self stands in update
host: host stands in update
device: device stands in update
device_num: device_num stands in set
device_type dtype: devices have no types; their number chooses one: set device_num(N)
default_async: async without a number is for queue 0
init: a script has its devices from the start
shutdown: a script has its devices to the end
set: set stands alone on its line: set device_num(N)
";
