//! What stands beside the programs in a folder, and runs them.

/// The Makefile. It works wherever the folder is.
pub const MAKEFILE: &str =
    r##"# Programs in C and Fortran, which `accrun --emit LANGUAGE --out` wrote from scripts of OpenACC data directives.
#
#   make check                  runs all on lamwiest, which pkg-config finds as lamwiest_acc, and prints TAP
#   make check DEVICE=FOLDER    on libgomp, with the device whose plugin is in that folder, by a path from here
#   make check DEVICE=own       on the machine's own device
#
# For other compilers: make check CC=nvc CFLAGS=-acc FC=nvfortran FFLAGS=-acc DEVICE=own
# FC= leaves out the programs in Fortran, and CC= those in C.
# The lines of the file KNOWN have a name, a tab and a reason each: these programs have to differ. A file settings.mk
# may set any of these variables.

CC = gcc
CFLAGS = -std=gnu11 -Wextra $(BOTH)
FC = gfortran
FFLAGS = -Wno-unused -Wno-unused-dummy-argument $(BOTH)
BOTH = -O1 -Wall -Werror -fopenacc $(if $(filter own,$(DEVICE)),,-foffload=disable)
DEVICE = lamwiest
KNOWN =
OUT = out
-include settings.mk

WAY = $(if $(filter lamwiest own,$(DEVICE)),$(DEVICE),libgomp)
FOUND := $(if $(filter lamwiest,$(WAY)),$(shell pkg-config --libs lamwiest_acc 2>/dev/null),none)
LIBRARIES = $(or $(filter-out none,$(FOUND)),$(if $(FOUND),,$(error pkg-config does not find lamwiest_acc)))
# Each compiler and each way has programs of its own.
C_MADE = $(OUT)/$(notdir $(firstword $(CC)))/$(WAY)
F_MADE = $(OUT)/$(notdir $(firstword $(FC)))/$(WAY)
PROGRAMS = $(if $(CC),$(patsubst %.c,$(C_MADE)/%,$(sort $(wildcard *.c)))) \
    $(if $(FC),$(patsubst %.F90,$(F_MADE)/%,$(sort $(wildcard *.F90))))

MAKEFLAGS += -j$(shell nproc) --no-print-directory

check: programs ; @bash ./check "$(DEVICE)" "$(KNOWN)" $(PROGRAMS)

programs: $(PROGRAMS)

# What a compiler does not take makes no program, and `check` tells that.
MAKE_IT = @mkdir -p $(@D) && { $(1) -o $@ $< $(LIBRARIES) || rm -f $@; }
$(C_MADE)/%: %.c Makefile ; $(call MAKE_IT,$(CC) $(CFLAGS))
$(F_MADE)/%: %.F90 Makefile ; $(call MAKE_IT,$(FC) $(FFLAGS))

clean: ; rm -rf $(OUT)

.PHONY: check programs clean
"##;

/// The runner, which bash runs.
pub const CHECK: &str =
    r##"# Runs programs of `accrun --emit LANGUAGE --out`, and prints TAP: `ok` where one ends with status 0, and so agrees. Those
# that the file KNOWN names have to differ, and are marked TODO with the reason that stands there.
# Usage: bash check DEVICE KNOWN PROGRAM..: DEVICE is `lamwiest`, with which the programs are linked; `own`, that of the
# machine; or the folder of a plugin for libgomp, where each program runs with eager queues and with late ones. KNOWN may
# be an empty word. The status is 1 where a program differs that is not known, or agrees though it is.
set -euo pipefail
device=$1
known=$2
shift 2
case $device in
lamwiest | own) ways=("on $device") ;;
*)
    if [[ ! -d $device ]]; then
        echo "check: DEVICE is '$device': neither 'lamwiest' nor 'own' nor a folder" >&2
        exit 2
    fi
    device=$(cd "$device" && pwd)
    ways=("eager queues" "late queues")
    ;;
esac
work=$(mktemp -d)
trap 'rm -rf "$work"' EXIT
declare -A reasons=()
if [[ -n $known ]]; then
    while IFS=$'\t' read -r name reason; do
        if [[ -n $name && $name != '#'* ]]; then reasons[$name]=$reason; fi
    done <"$known"
fi

# Runs a program, and ends with its status.
run() {
    local way=$1 program=$2
    case $way in
    *" queues") timeout 60 env "DEVICE_QUEUES=${way% queues}" "LD_LIBRARY_PATH=$device" "$program" ;;
    *) timeout 60 "$program" ;;
    esac
}

echo "1..$(($# * ${#ways[@]}))"
number=0
agree=0
as_known=0
skipped=0
differ=0
for program in "$@"; do
    name=${program##*/}
    compiler=${program%/*/*}
    compiler=${compiler##*/}
    for way in "${ways[@]}"; do
        number=$((number + 1))
        test="$number - $name by $compiler, $way"
        status=0
        if [[ -x $program ]]; then
            run "$way" "$program" >"$work/output" 2>&1 || status=$?
        else
            status=none
            echo "it does not compile" >"$work/output"
        fi
        if [[ $status == 77 && $device == own ]]; then
            echo "ok $test # SKIP the device shares the host's memory"
            skipped=$((skipped + 1))
        elif [[ $status == 0 && -z ${reasons[$name]:-} ]]; then
            echo "ok $test"
            agree=$((agree + 1))
        elif [[ $status == 0 ]]; then
            echo "not ok $test"
            echo "# it agrees, and $known names it"
            differ=$((differ + 1))
        elif [[ -n ${reasons[$name]:-} && $status != 77 && $status != none ]]; then
            echo "not ok $test # TODO ${reasons[$name]}"
            as_known=$((as_known + 1))
        else
            echo "not ok $test"
            echo "# status $status"
            tail -n 6 "$work/output" | sed 's/^/# /'
            differ=$((differ + 1))
        fi
    done
done
echo "# $number runs: $agree agree, $as_known differ as ${known:-nothing} says, $skipped skipped, $differ failed"
((number > 0 && differ == 0))
"##;
