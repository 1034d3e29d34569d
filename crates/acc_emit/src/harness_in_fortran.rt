//! The harness in Fortran.

use crate::harness::Harness;

/// The harness in Fortran. The modules `openacc` of older compilers lack what the interfaces declare.
pub const IN_FORTRAN: Harness = Harness {
    head: r#"! Written from a script by accrun --emit fortran. The program does what the script does, and prints what the script
! prints. It ends with status 0 if all that came is as expected, with 1 at the first line that differs, and with 77 where
! the device shares the host's memory. A byte that OpenACC leaves open is expected as ??, and any will do. It is OpenACC
! 3.3 and Fortran 2018, for any compiler that preprocesses it, and a device with memory of its own.

! Whether the compiler knows the modifier 'zero' of create and copyout. Where it does not, the program fills.
#ifndef KNOWS_ZERO
#ifdef __GFORTRAN__
#define KNOWS_ZERO 0
#else
#define KNOWS_ZERO 1
#endif
#endif

! The lowest eight bits of a number, as a byte.
#define BYTE(number) int(modulo(number + 128, 256) - 128, 1)

program script
    use, intrinsic :: iso_c_binding
    use, intrinsic :: iso_fortran_env, only: output_unit
    use openacc, only: acc_get_device_type, acc_get_num_devices, acc_is_present, acc_set_device_num
    implicit none

"#,
    declarations: r#"
    ! Room for the bytes of the longest section that is looked at.
    integer(1), target, save :: bytes(0:LONGEST - 1)
    integer :: i

    ! Calls of the runtime that not each module openacc has, and of the library of C.
    interface
        subroutine acc_attach(pointer) bind(c)
            type(*) :: pointer(*)
        end subroutine
        subroutine acc_detach(pointer) bind(c)
            type(*) :: pointer(*)
        end subroutine
        subroutine acc_detach_finalize(pointer) bind(c)
            type(*) :: pointer(*)
        end subroutine
        type(c_ptr) function acc_deviceptr(at) bind(c)
            import
            type(*) :: at(*)
        end function
        subroutine acc_memcpy_from_device(to, from, length) bind(c)
            import
            type(*) :: to(*)
            type(c_ptr), value :: from
            integer(c_size_t), value :: length
        end subroutine
        subroutine acc_memcpy_to_device(to, from, length) bind(c)
            import
            type(c_ptr), value :: to
            type(*) :: from(*)
            integer(c_size_t), value :: length
        end subroutine
        integer(c_int) function atexit(handler) bind(c)
            import
            type(c_funptr), value :: handler
        end function
        type(c_funptr) function on_signal(signal, handler) bind(c, name="signal")
            import
            integer(c_int), value :: signal
            type(c_funptr), value :: handler
        end function
        subroutine end_at_once(status) bind(c, name="_Exit")
            import
            integer(c_int), value :: status
        end subroutine
    end interface

    call ask_for_discrete_device()
"#,
    functions: r#"contains
    ! Whether each digit that came is the expected one; ? stands for any.
    pure logical function agrees(expected, came)
        character(*), intent(in) :: expected, came
        integer :: at
        agrees = len(expected) == len(came)
        do at = 1, merge(len(came), 0, agrees)
            if (expected(at:at) == "?") then
                agrees = agrees .and. scan(came(at:at), "0123456789abcdef") == 1
            else
                agrees = agrees .and. expected(at:at) == came(at:at)
            end if
        end do
    end function

    ! Prints what came, and ends the program where it is not what was expected.
    subroutine check(line, came, expected)
        integer, intent(in) :: line
        character(*), intent(in) :: came, expected
        print '(a)', came
        if (agrees(expected, came)) return
        print '(a, i0, a)', "line ", line, " of the script: expected"
        print '(a)', expected, "but came", came
        stop 1
    end subroutine

    function digits_of(from) result(digits)
        integer(1), intent(in) :: from(:)
        character(2 * size(from)) :: digits
        integer :: at
        write (digits, '(*(z2.2))') from
        do at = 1, len(digits)
            if (digits(at:at) >= "A") digits(at:at) = achar(iachar(digits(at:at)) + 32)
        end do
    end function

    ! Writes the bytes of these digits.
    subroutine put(at, digits)
        integer(1), intent(out) :: at(:)
        character(*), intent(in) :: digits
        integer :: numbers(size(at))
        read (digits, '(*(z2))') numbers
        at = BYTE(numbers)
    end subroutine

    ! The bytes of host memory.
    subroutine show(line, at, expected)
        integer, intent(in) :: line
        integer(1), intent(in) :: at(:)
        character(*), intent(in) :: expected
        call check(line, digits_of(at), expected)
    end subroutine

    ! The bytes of the device.
    subroutine peek(line, at, expected)
        integer, intent(in) :: line
        integer(1), contiguous, intent(in) :: at(:)
        character(*), intent(in) :: expected
        if (acc_is_present(at, size(at))) then
            call acc_memcpy_from_device(bytes, acc_deviceptr(at), size(at, kind=c_size_t))
            call check(line, digits_of(bytes(:size(at) - 1)), expected)
        else
            call check(line, "none", expected)
        end if
    end subroutine

    ! Ends the program where the eight bytes of a pointer are not those of an address.
    subroutine show_pointer(line, at, address)
        integer, intent(in) :: line
        integer(1), intent(in) :: at(:)
        type(c_ptr), intent(in) :: address
        if (all(at == transfer(address, at))) return
        print '(a, i0, 4a)', "line ", line, " of the script: expected the pointer ", digits_of(transfer(address, at)), &
            ", but came ", digits_of(at)
        stop 1
    end subroutine

    ! A pointer on the device.
    subroutine peek_pointer(line, at, address)
        integer, intent(in) :: line
        integer(1), contiguous, intent(in) :: at(:)
        type(c_ptr), intent(in) :: address
        integer(1) :: found(8)
        call acc_memcpy_from_device(found, acc_deviceptr(at), size(at, kind=c_size_t))
        call show_pointer(line, found, address)
    end subroutine

    subroutine present(line, at, expected)
        integer, intent(in) :: line
        integer(1), contiguous, intent(in) :: at(:)
        character(*), intent(in) :: expected
        call check(line, trim(merge("yes", "no ", acc_is_present(at, size(at)))), expected)
    end subroutine

    ! Writes the address of a byte, as a pointer.
    subroutine point(at, to)
        integer(1), intent(out) :: at(:)
        type(c_ptr), intent(in) :: to
        at = transfer(to, at)
    end subroutine

    ! Fills a new block with 0, for a compiler that does not know the modifier.
    subroutine fill_with_zero(at)
        integer(1), contiguous, intent(in) :: at(:)
        bytes = 0_1
        call acc_memcpy_to_device(acc_deviceptr(at), bytes, size(at, kind=c_size_t))
    end subroutine

    ! The next directive has to fail: if the runtime ends the program by an error there, that is as it should be.
    subroutine expect_failure()
        integer(c_int), parameter :: sigabrt = 6
        type(c_funptr) :: before
        flush (output_unit)
        if (atexit(c_funloc(ended)) /= 0) stop 2
        before = on_signal(sigabrt, c_funloc(aborted))
    end subroutine

    subroutine ended() bind(c)
        call end_at_once(0_c_int)
    end subroutine

    subroutine aborted(signal) bind(c)
        integer(c_int), value :: signal
        call end_at_once(0_c_int)
    end subroutine

    subroutine no_failure(line)
        integer, intent(in) :: line
        print '(a, i0, a)', "line ", line, " of the script was not refused"
        flush (output_unit)
        call end_at_once(1_c_int)
    end subroutine

    ! Ends the program where the device shares the host's memory.
    subroutine ask_for_discrete_device()
        integer(1), target, save :: probe(16)
        logical :: shares
        !$acc enter data create(probe)
        shares = c_associated(acc_deviceptr(probe), c_loc(probe))
        !$acc exit data delete(probe)
        if (shares) then
            print '(a)', "not a discrete device"
            stop 77
        end if
    end subroutine
end program
"#,
};
