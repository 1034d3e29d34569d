//! The harness of each program: what stands before and behind the statements of its script.

/// What stands around what a script gives.
#[derive(Clone, Copy)]
pub struct Harness {
    /// The head, up to the arrays.
    pub head: &'static str,
    /// What the statements use.
    pub declarations: &'static str,
    /// What stands behind the statements: the end of the main program, and what it calls.
    pub functions: &'static str,
}

/// The harness in C.
pub const IN_C: Harness = Harness {
    head: r#"/* Written from a script by accrun --emit c. The program does what the script does, and prints what the script prints.
   It ends with status 0 if all that came is as expected, with 1 at the first line that differs, and with 77 where the
   device shares the host's memory. A byte that OpenACC leaves open is expected as ??, and any will do. It is OpenACC 3.3,
   for any compiler, and a device with memory of its own. */
#include <ctype.h>
#include <openacc.h>
#include <signal.h>
#include <stdio.h>
#include <stdlib.h>
#include <string.h>

/* Whether the compiler knows the modifier 'zero' of create and copyout. Where it does not, the program fills. */
#ifndef KNOWS_ZERO
#if defined(__GNUC__) && !defined(__clang__) && !defined(__NVCOMPILER)
#define KNOWS_ZERO 0
#else
#define KNOWS_ZERO 1
#endif
#endif

"#,
    declarations: r#"
/* Room for the bytes of the longest section that is looked at. */
static unsigned char bytes[LONGEST];

static inline void show(int line, const unsigned char *at, size_t length, const char *expected);
static inline void peek(int line, unsigned char *at, size_t length, const char *expected);
static inline void show_pointer(int line, const unsigned char *at, const void *address);
static inline void peek_pointer(int line, unsigned char *at, const void *address);
static inline void present(int line, unsigned char *at, size_t length, const char *expected);
static inline void point(unsigned char *at, void *to);
static inline void fill_with_zero(unsigned char *at, size_t length);
static inline void expect_failure(void);
static inline void no_failure(int line);
static inline void ask_for_discrete_device(void);

int main(void)
{
    ask_for_discrete_device();
"#,
    functions: r#"    return 0;
}

/* What came, as digits or a word. */
static char came[2 * LONGEST + 8];

/* Whether a digit that came is the expected one; ? stands for any. */
static inline int agrees(char expected, char found)
{
    return expected == found || (expected == '?' && isxdigit((unsigned char)found));
}

/* Prints what came, and ends the program where it is not what was expected. */
static inline void check(int line, const char *expected)
{
    size_t i = 0;
    while (came[i] != 0 && agrees(expected[i], came[i]))
        i++;
    puts(came);
    if (came[i] == 0 && expected[i] == 0)
        return;
    printf("line %d of the script: expected\n%s\nbut came\n%s\n", line, expected, came);
    exit(1);
}

static inline void put_digits(const unsigned char *from, size_t length)
{
    for (size_t i = 0; i < length; i++)
        sprintf(came + 2 * i, "%02x", from[i]);
}

/* The bytes of host memory. */
static inline void show(int line, const unsigned char *at, size_t length, const char *expected)
{
    put_digits(at, length);
    check(line, expected);
}

/* The bytes of the device. */
static inline void peek(int line, unsigned char *at, size_t length, const char *expected)
{
    if (acc_is_present(at, length)) {
        acc_memcpy_from_device(bytes, acc_deviceptr(at), length);
        put_digits(bytes, length);
    } else {
        strcpy(came, "none");
    }
    check(line, expected);
}

/* Ends the program where the eight bytes of a pointer are not those of an address. */
static inline void check_pointer(int line, const unsigned char *at, const void *address)
{
    const void *found;
    memcpy(&found, at, sizeof found);
    if (found == address)
        return;
    printf("line %d of the script: expected the pointer %p, but came %p\n", line, address, found);
    exit(1);
}

/* A pointer in host memory. */
static inline void show_pointer(int line, const unsigned char *at, const void *address)
{
    check_pointer(line, at, address);
}

/* A pointer on the device. */
static inline void peek_pointer(int line, unsigned char *at, const void *address)
{
    unsigned char found[sizeof address];
    acc_memcpy_from_device(found, acc_deviceptr(at), sizeof found);
    check_pointer(line, found, address);
}

static inline void present(int line, unsigned char *at, size_t length, const char *expected)
{
    strcpy(came, acc_is_present(at, length) ? "yes" : "no");
    check(line, expected);
}

/* Writes the address of a byte, as a pointer. */
static inline void point(unsigned char *at, void *to)
{
    memcpy(at, &to, sizeof to);
}

/* Fills a new block with 0, for a compiler that does not know the modifier. */
static inline void fill_with_zero(unsigned char *at, size_t length)
{
    memset(bytes, 0, length);
    acc_memcpy_to_device(acc_deviceptr(at), bytes, length);
}

/* Whether the next directive has to fail: if the runtime ends the program by an error there, that is as it should be. */
static volatile sig_atomic_t has_to_fail;

static inline void ended(void)
{
    if (has_to_fail)
        _Exit(0);
}

static inline void aborted(int signal)
{
    (void)signal;
    _Exit(0);
}

static inline void expect_failure(void)
{
    fflush(stdout);
    atexit(ended);
    signal(SIGABRT, aborted);
    has_to_fail = 1;
}

static inline void no_failure(int line)
{
    has_to_fail = 0;
    printf("line %d of the script was not refused\n", line);
    exit(1);
}

/* Ends the program where the device shares the host's memory. */
static inline void ask_for_discrete_device(void)
{
    static unsigned char probe[16];
    int shares;
#pragma acc enter data create(probe)
    shares = acc_deviceptr(probe) == (void *)probe;
#pragma acc exit data delete(probe)
    if (shares) {
        puts("not a discrete device");
        exit(77);
    }
}
"#,
};
